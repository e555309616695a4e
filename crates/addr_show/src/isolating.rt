// The isolation of a folder: its duplicates become entries of a group of their own. Where there are none nothing is put.
ghost use Rattle.std.specs.Prelude.{◌≡◌, ◌≢◌, [], IfOk};
ghost use Rattle.addr_analyze.specs.Duplicates.{AreDuplicates};
ghost use Rattle.addr_images.specs.Limits.{IsPlanWithin};
ghost use Rattle.addr_isolate.specs.Leaving.{OfFiles};
ghost use Rattle.addr_pack.specs.Placement.{IsPlaced};
ghost use Rattle.addr_project.specs.Reading.{ProjectOf};
ghost use Rattle.addr_show.specs.Analyzing.{AnalyzeRose};
ghost use Rattle.addr_show.specs.Isolating.{LeavesFolder};

use crate::error::AnalyzeErr;
use addr_analyze::{Duplicate, duplicates};
use addr_base::{Depot, Items, NoMemory, Text};
use addr_images::plan_within;
use addr_isolate::isolate_folder;
use addr_layout::{layout, placement_is_shared};
use addr_pack::Plan;
use addr_project::Project;
use std::alloc::Global;

/// The group that a project got for its duplicates.
#[derive(Debug, Drop)]
pub struct NewGroup {
    /// How many entries it has: the number of the duplicates.
    pub count: usize,
    pub name: Text,
}

/// Puts the project file in which each duplicate is an entry of a group of its own into the folder, and gives that group; None where
/// the project has no duplicate, and then nothing is put. The folder is named without a `/` at its end. It makes at most one put.
pub fn isolate<D: Depot>(
    alloc: Global,
    depot: &mut D,
    folder: &str,
) -> Result<Option<NewGroup>, AnalyzeErr>
    ensures files { OfFiles (D.now depot.old).files (D.now depot.new).files
        (λ before after. LeavesFolder before folder.now after result) }
    ensures cause { AnalyzeRose (D.now depot.old).faults (D.now depot.new).faults result }
{
    let project = Project::read(alloc, depot, folder)?;
    isolate_project(alloc, depot, folder, &project)
}

/// Isolates a folder that stands for the project, whose limits are tested first.
fn isolate_project<D: Depot>(
    alloc: Global,
    depot: &mut D,
    folder: &str,
    project: &Project,
) -> Result<Option<NewGroup>, AnalyzeErr>
    ensures files { OfFiles (D.now depot.old).files (D.now depot.new).files
        (λ before after. ProjectOf before folder.now project.now → LeavesFolder before folder.now after result) }
    ensures cause { AnalyzeRose (D.now depot.old).faults (D.now depot.new).faults result }
{
    let plan = plan_within(alloc, project)?;
    let found = duplicates_of(alloc, project, &plan)?;
    if found.is_empty() {
        return Ok(None);
    }
    put_group(alloc, depot, folder, project, &plan, found.as_slice())
}

/// The duplicates of a placement.
fn duplicates_of(
    alloc: Global,
    project: &Project,
    plan: &Plan,
) -> Result<Items<Duplicate>, NoMemory>
    requires { IsPlaced project.now plan.now }
    ensures { IfOk result (AreDuplicates project.now plan.now) }
{
    placement_is_shared(project, plan);
    let layout = layout(alloc, project, plan)?;
    duplicates(alloc, project, plan, &layout)
}

/// Puts the file with the group of these duplicates.
fn put_group<D: Depot>(
    alloc: Global,
    depot: &mut D,
    folder: &str,
    project: &Project,
    plan: &Plan,
    found: &[Duplicate],
) -> Result<Option<NewGroup>, AnalyzeErr>
    requires within { IsPlanWithin project.now plan.now }
    requires are { AreDuplicates project.now plan.now found.now }
    requires some { found.now ≢ [] }
    ensures files { OfFiles (D.now depot.old).files (D.now depot.new).files
        (λ before after. ProjectOf before folder.now project.now → LeavesFolder before folder.now after result) }
    ensures cause { AnalyzeRose (D.now depot.old).faults (D.now depot.new).faults result }
{
    match isolate_folder(alloc, depot, folder, project, plan, found) {
        Ok(name) => Ok(Some(NewGroup {
            count: found.len(),
            name,
        })),
        Err(refusal) => Err(AnalyzeErr::from(refusal)),
    }
}
