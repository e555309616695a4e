// The bytes of a project file as a TOML document.
ghost use Rattle.std.specs.Prelude.{◌≡◌, ◌⊎◌, Some, None, IfOk, IfErr, IfSome};
ghost use Rattle.addr_base.specs.Files.{SameStore};
ghost use Rattle.toml.specs.View.{table_view};
ghost use Rattle.addr_project.specs.Causes.{FaultHasCause};
ghost use Rattle.addr_project.specs.Reading.{tree_of};
ghost use Rattle.addr_project.specs.TreeReading.{ReadsTree};
ghost use Rattle.addr_project.specs.declared.error.ProjectErr.TheVariants as faults;

use crate::asset_files::path_of;
use crate::error::ProjectErr;
use addr_base::Depot;
use std::alloc::Global;
use toml::Table;

/// The document that the bytes are.
#[tactic(auto, using(crate::proofs::DocumentLemmas::tree_good, crate::proofs::DocumentLemmas::tree_bad))]
pub fn parse(alloc: Global, bytes: &[u8]) -> Result<Table, ProjectErr>
    ensures ok { IfOk result (λ tree. tree_of bytes.now ≡ Some (table_view tree)) }
    ensures err { IfErr result (λ e. (e ≡ faults.NoMemory) ⊎ ((e ≡ faults.BadToml) × (tree_of bytes.now ≡ None))) }
{
    match toml::table_from_slice(alloc, bytes) {
        Ok(table) => Ok(table),
        Err(error) => {
            if error.is_memory() {
                Err(ProjectErr::NoMemory)
            } else {
                Err(ProjectErr::BadToml)
            }
        }
    }
}

/// The document of a folder's project file.
pub fn read_tree<D: Depot>(alloc: Global, depot: &mut D, folder: &str) -> Result<Table, ProjectErr>
    ensures told { IfSome (D.now depot.old).files (λ files. ReadsTree files folder.now result) }
    ensures same { SameStore (D.now depot.old) (D.now depot.new) }
    ensures cause { FaultHasCause (D.now depot.old).faults (D.now depot.new).faults result }
{
    let name = path_of(alloc, folder, "project.toml")?;
    match depot.read(alloc, name.as_str())? {
        Some(bytes) => match parse(alloc, bytes.as_slice()) {
            Ok(tree) => Ok(tree),
            Err(fault) => Err(fault),
        },
        None => Err(ProjectErr::NoProject),
    }
}
