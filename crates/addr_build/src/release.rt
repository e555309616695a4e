// Putting the release of a project: bundles, content state, catalogue, hash.
ghost use Rattle.std.specs.Prelude.{◌≡◌};
ghost use Rattle.addr_layout.specs.Layout.{IsLayout};
ghost use Rattle.addr_pack.specs.LongNames.{NamesFit};
ghost use Rattle.addr_pack.specs.Placement.{IsPlaced};
ghost use Rattle.addr_build.specs.Endings.{PutRose};
ghost use Rattle.addr_build.specs.within.Building.{PutsRelease};

use crate::bundles::put_bundles;
use crate::catalogue_puts::put_state_and_catalogue;
use crate::error::PutErr;
use crate::index::index_of;
use addr_base::Depot;
use addr_layout::{Layout, placement_is_shared};
use addr_pack::Plan;
use addr_project::Project;
use std::alloc::Global;

/// What was built: how many bundles the release has, how many of their files were put since they weren't there, and how
/// many rows of assets. A full build moves no entry.
#[derive(Clone, Copy, Debug, PartialEq, Eq)]
pub struct Summary {
    pub moved: u32,
    pub bundles: u32,
    pub put: u32,
    pub rows: u32,
}

pub(crate) fn put_release<D: Depot>(
    alloc: Global,
    depot: &mut D,
    folder: &str,
    project: &Project,
    plan: &Plan,
    layout: &Layout,
) -> Result<Summary, PutErr>
    requires placed { IsPlaced project.now plan.now }
    requires fit { NamesFit project.now }
    requires laid { IsLayout project.now plan.now layout.now }
    ensures puts { PutsRelease project.now plan.now folder.now (D.now depot.old) (D.now depot.new) result }
    ensures cause { PutRose (D.now depot.old).faults (D.now depot.new).faults result }
{
    project.kept();
    placement_is_shared(project, plan);
    let laid = put_bundles(alloc, depot, folder, project, plan, layout)?;
    let summary = Summary {
        moved: 0,
        bundles: plan.bundles.len() as u32,
        put: laid.put as u32,
        rows: project.entries().len() as u32,
    };
    let index = index_of(alloc, project, plan, layout, laid.rows)?;
    put_state_and_catalogue(
        alloc,
        depot,
        folder,
        index.state.as_slice(),
        index.catalogue.as_slice(),
    )?;
    Ok(summary)
}
