// `plan`: the bundles that a project folder is packed into. Both limits are tested before a layout is made.
ghost use Rattle.std.specs.Prelude.{◌≡◌};
ghost use Rattle.addr_base.specs.Files.{SameStore};
ghost use Rattle.addr_cli.specs.Outcome.{CommandEnds, CountsFault, Planned};
ghost use Rattle.addr_cli.specs.Planning.{ReadsProject};
ghost use Rattle.addr_cli.specs.Words.{plan as plan_command};

use crate::refusal::Refusal;
use addr_base::{Depot, Text};
use addr_layout::{closed, deps_count, direct_closes, layout, members_count, placement_is_shared};
use addr_pack::plan;
use addr_project::{Limit, Project, ProjectErr};
use addr_texts::plan_text;
use std::alloc::Global;

/// The most members, and the most dependencies, of all bundles together.
const MOST: u64 = 4_000_000;

/// The bundles of the folder's project, as text.
pub fn plan_folder<D: Depot>(alloc: Global, folder: &Text, depot: &mut D) -> Result<Text, Refusal>
    ensures ends { CommandEnds (plan_command folder.now) (D.now depot.old) (D.now depot.new) result }
    ensures cause { CountsFault (D.now depot.old) (D.now depot.new) result }
    ensures same { SameStore (D.now depot.old) (D.now depot.new) }
{
    let project = read_project(alloc, folder, depot)?;
    planned(alloc, &project)
}

fn read_project<D: Depot>(alloc: Global, folder: &Text, depot: &mut D) -> Result<Project, Refusal>
    ensures read { ReadsProject folder.now (D.now depot.old) (D.now depot.new) result }
    ensures cause { CountsFault (D.now depot.old) (D.now depot.new) result }
    ensures same { SameStore (D.now depot.old) (D.now depot.new) }
{
    match Project::read(alloc, depot, folder.as_str()) {
        Ok(project) => Ok(project),
        Err(ProjectErr::NoMemory) => Err(Refusal::NoMemory),
        Err(ProjectErr::DepotFault) => Err(Refusal::Depot),
        Err(fault) => Err(Refusal::BadProject(fault)),
    }
}

/// The text of a project's placement, or the first limit that is passed.
fn planned(alloc: Global, project: &Project) -> Result<Text, Refusal>
    ensures { Planned project.now result }
{
    let placement = plan(alloc, project)?;
    placement_is_shared(project, &placement);
    let members = members_count(alloc, project, &placement)?;
    if members > MOST {
        return Err(Refusal::TooLarge(Limit::Members, members));
    }
    let deps = deps_count(alloc, project, &placement)?;
    if deps > MOST {
        return Err(Refusal::TooLarge(Limit::Deps, deps));
    }
    let layout = layout(alloc, project, &placement)?;
    direct_closes(project, &placement, &layout);
    let direct = layout.direct(alloc)?;
    let deps = closed(alloc, direct.as_slice())?;
    let text = plan_text(alloc, project, &placement, &layout, deps.as_slice())?;
    Ok(text)
}
