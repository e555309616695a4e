// The isolation of a folder: its project file is read, and the isolated one is put in its place.
ghost use Rattle.std.specs.Prelude.{◌≡◌, List, ℕ, Some, IfOk, IfErr, IfSome};
ghost use Rattle.addr_analyze.specs.Duplicates.{AreDuplicates};
ghost use Rattle.addr_base.specs.Files.{SameStore, file_at};
ghost use Rattle.addr_project.specs.Reading.{ProjectOf};
ghost use Rattle.addr_isolate.specs.Isolating.{project_path};
ghost use Rattle.addr_isolate.specs.Leaving.{FolderRose, IsUnread, Leaves, OfFiles, PutsMade};

use crate::error::IsolateErr;
use crate::isolating::{Isolation, isolate};
use addr_analyze::Duplicate;
use addr_base::{Depot, DepotErr, NoMemory, Text};
use addr_pack::Plan;
use addr_project::Project;
use std::alloc::Global;

/// Puts the project file in which each duplicate is an entry of a group of its own into the folder, whose name is given without a
/// `/` at its end, and gives the group's name. It makes one put.
pub fn isolate_folder<D: Depot>(
    alloc: Global,
    depot: &mut D,
    folder: &str,
    project: &Project,
    plan: &Plan,
    found: &[Duplicate],
) -> Result<Text, IsolateErr>
    requires found { AreDuplicates project.now plan.now found.now }
    ensures files { OfFiles (D.now depot.old).files (D.now depot.new).files
        (λ before after. ProjectOf before folder.now project.now → Leaves project.now found.now folder.now before after result) }
    ensures cause { FolderRose (D.now depot.old).faults (D.now depot.new).faults result }
{
    let name = match path_of(alloc, folder) {
        Ok(name) => name,
        Err(NoMemory) => return Err(IsolateErr::NoMemory),
    };
    match read_file(alloc, depot, name.as_str()) {
        Ok(file) => put_isolated(alloc, depot, name.as_str(), project, plan, found, &file),
        Err(refusal) => Err(refusal),
    }
}

fn path_of(alloc: Global, folder: &str) -> Result<Text, NoMemory>
    ensures { IfOk result (λ name. name ≡ project_path folder.now) }
{
    let name = format!(in alloc; "{folder}/project.toml")?;
    Ok(Text::from_string(name))
}

fn read_file<D: Depot>(alloc: Global, depot: &mut D, name: &str) -> Result<Vec<u8>, IsolateErr>
    ensures content { IfOk result
        (λ file. IfSome (D.now depot.old).files (λ files. file_at name.now files ≡ Some file.items)) }
    ensures refused { IfErr result (λ e. IfSome (D.now depot.old).files (λ files. IsUnread name.now files e)) }
    ensures same { SameStore (D.now depot.old) (D.now depot.new) }
    ensures cause { FolderRose (D.now depot.old).faults (D.now depot.new).faults result }
{
    match depot.read(alloc, name) {
        Ok(Some(file)) => Ok(file),
        Ok(None) => Err(IsolateErr::Broken),
        Err(DepotErr::Fault) => Err(IsolateErr::DepotFault),
        Err(DepotErr::NoMemory) => Err(IsolateErr::NoMemory),
    }
}

/// Puts what is made of the file in its place.
fn put_isolated<D: Depot>(
    alloc: Global,
    depot: &mut D,
    name: &str,
    project: &Project,
    plan: &Plan,
    found: &[Duplicate],
    file: &[u8],
) -> Result<Text, IsolateErr>
    requires found { AreDuplicates project.now plan.now found.now }
    ensures files { OfFiles (D.now depot.old).files (D.now depot.new).files
        (λ before after. (folder : List ℕ) → name.now ≡ project_path folder → ProjectOf before folder project.now
        → file_at name.now before ≡ Some file.now → Leaves project.now found.now folder before after result) }
    ensures cause { FolderRose (D.now depot.old).faults (D.now depot.new).faults result }
{
    match isolate(alloc, project, plan, found, file) {
        Ok(made) => put_made(alloc, depot, name, made),
        Err(refusal) => Err(refusal),
    }
}

/// Puts the made file, and gives the group's name.
fn put_made<D: Depot>(
    alloc: Global,
    depot: &mut D,
    name: &str,
    made: Isolation,
) -> Result<Text, IsolateErr>
    ensures files { OfFiles (D.now depot.old).files (D.now depot.new).files
        (λ before after. PutsMade name.now made before after result) }
    ensures cause { FolderRose (D.now depot.old).faults (D.now depot.new).faults result }
{
    let Isolation { group, file } = made;
    match depot.put(alloc, name, file.as_bytes()) {
        Ok(()) => Ok(group),
        Err(DepotErr::Fault) => Err(IsolateErr::DepotFault),
        Err(DepotErr::NoMemory) => Err(IsolateErr::NoMemory),
    }
}
