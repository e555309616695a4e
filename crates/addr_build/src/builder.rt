// A full build: the folder's project is read and measured, and then its release is put.
ghost use Rattle.std.specs.Prelude.{◌≡◌, ℕ, List, Some, IfOk, IfSome, IsSomeAnd};
ghost use Rattle.addr_base.specs.Files.{SameStore};
ghost use Rattle.addr_layout.specs.Layout.{IsLayout};
ghost use Rattle.addr_release.specs.Held.{IsHeld};
ghost use Rattle.addr_release.specs.Laws.{Keeps};
ghost use Rattle.addr_build.specs.After.{IsAgain, IsSoundFor, Leaves, Serves, Shows};
ghost use Rattle.addr_build.specs.Moments.{AtEachMoment};
ghost use Rattle.addr_build.specs.Outcomes.{Answers, BuildRose, Builds, IsEarly, IsWithin};
ghost use Rattle.addr_build.specs.within.Preparing.{IsUnfit, Prepares};

use crate::error::BuildErr;
use crate::release::{Summary, put_release};
use addr_base::Depot;
use addr_images::{layout_within, plan_within};
use addr_layout::Layout;
use addr_pack::Plan;
use addr_project::Project;
use std::alloc::Global;

/// A project with its placement and layout, within all limits.
#[derive(Drop)]
pub(crate) struct Prepared {
    pub project: Project,
    pub placement: Plan,
    pub layout: Layout,
}

/// Places and lays out a project, or tells the first limit that it passes.
fn measure(alloc: Global, project: Project) -> Result<Prepared, BuildErr>
    ensures same { IfOk result (λ made. made.project ≡ project) }
    ensures within { IfOk result (λ made. IsWithin made.project made.placement) }
    ensures laid { IfOk result (λ made. IsLayout made.project made.placement made.layout) }
    ensures unfit { IsUnfit project result }
{
    let placement = plan_within(alloc, &project)?;
    let layout = layout_within(alloc, &project, &placement)?;
    Ok(Prepared {
        project,
        placement,
        layout,
    })
}

fn prepare<D: Depot>(alloc: Global, depot: &mut D, folder: &str) -> Result<Prepared, BuildErr>
    ensures told { IfSome (D.now depot.old).files (λ files. Prepares (λ made. made.project) folder.now files result) }
    ensures within { IfOk result (λ made. IsWithin made.project made.placement) }
    ensures laid { IfOk result (λ made. IsLayout made.project made.placement made.layout) }
    ensures same { SameStore (D.now depot.old) (D.now depot.new) }
    ensures cause { BuildRose (D.now depot.old).faults (D.now depot.new).faults result }
{
    let project = Project::read(alloc, depot, folder)?;
    measure(alloc, project)
}

/// Builds the release of the folder's project, whose name is given without a `/` at its end: bundles in name order, the
/// content state, the catalogue, at whose put the release changes, and the catalogue's hash. No clauses: a file that is
/// there with the same bytes isn't put again (each call that puts one has a clause for it), and each is made, compared and
/// let go before the next, so that beside the project one bundle's file is in memory at a time.
pub fn build<D: Depot>(alloc: Global, depot: &mut D, folder: &str) -> Result<Summary, BuildErr>
    ensures answers { IfSome (D.now depot.old).files (λ old. IsSomeAnd (D.now depot.new).files
        (λ new. Answers folder.now old new result)) }
    ensures shows { Leaves (λ done. Shows folder.now) (D.now depot.old) (D.now depot.new) result }
    ensures sound { Leaves (λ done. IsSoundFor folder.now) (D.now depot.old) (D.now depot.new) result }
    ensures held { Leaves (λ done old new. IsHeld new folder.now) (D.now depot.old) (D.now depot.new) result }
    ensures again { IsAgain folder.now (D.now depot.old) (D.now depot.new) result }
    ensures serves { AtEachMoment (Serves folder.now) (D.now depot.old) (D.now depot.new) }
    ensures keeps { AtEachMoment (Keeps folder.now) (D.now depot.old) (D.now depot.new) }
    ensures moments { Builds folder.now (D.now depot.old) (D.now depot.new) }
    ensures early { IsEarly result → SameStore (D.now depot.old) (D.now depot.new) }
    ensures cause { BuildRose (D.now depot.old).faults (D.now depot.new).faults result }
{
    let made = prepare(alloc, depot, folder)?;
    made.project.kept();
    let summary = put_release(
        alloc,
        depot,
        folder,
        &made.project,
        &made.placement,
        &made.layout,
    )?;
    Ok(summary)
}
