// Updating a shipped release: the folder is compared with its project, the update is measured, and then it is put.
ghost use Rattle.std.specs.Prelude.{◌≡◌, IfSome, IsSomeAnd};
ghost use Rattle.addr_base.specs.Files.{SameStore};
ghost use Rattle.addr_build.specs.After.{Leaves};
ghost use Rattle.addr_build.specs.Moments.{AtEachMoment};
ghost use Rattle.addr_release.specs.Laws.{Keeps};
ghost use Rattle.addr_patch.specs.After.{CountsMoves, HoldsStill, IsSoundFor, IsStep, Serves, Shows};
ghost use Rattle.addr_patch.specs.Outcomes.{Answers, IsEarly, UpdateRose, Updates};

use crate::error::UpdateErr;
use crate::preparing::prepare;
use crate::putting::put_update;
use addr_base::Depot;
use addr_build::Summary;
use addr_check::compare;
use std::alloc::Global;

/// Updates the release of a folder, whose name is given without a `/` at its end, to the folder's project. Entries of fixed groups
/// stay in the bundles that the last full build made, where these and all that they lead to are as the project has them; the others
/// move into one new bundle. The bundles that aren't kept are put in the order of names, then the catalogue, at whose put the release
/// changes, and its hash; the content state stays as it is. No clauses: kept bundles are read once, a file that is there with the
/// same bytes isn't put again, and one new bundle's file is in memory at a time.
pub fn update<D: Depot>(alloc: Global, depot: &mut D, folder: &str) -> Result<Summary, UpdateErr>
    ensures answers { IfSome (D.now depot.old).files (λ old. IsSomeAnd (D.now depot.new).files
        (λ new. Answers folder.now old new result)) }
    ensures shows { Leaves (λ done. Shows folder.now) (D.now depot.old) (D.now depot.new) result }
    ensures sound { Leaves (λ done. IsSoundFor folder.now) (D.now depot.old) (D.now depot.new) result }
    ensures held { Leaves (λ done. HoldsStill folder.now) (D.now depot.old) (D.now depot.new) result }
    ensures step { Leaves (λ done. IsStep folder.now) (D.now depot.old) (D.now depot.new) result }
    ensures counts { Leaves (λ done old new. CountsMoves folder.now done old) (D.now depot.old) (D.now depot.new) result }
    ensures serves { AtEachMoment (Serves folder.now) (D.now depot.old) (D.now depot.new) }
    ensures keeps { AtEachMoment (Keeps folder.now) (D.now depot.old) (D.now depot.new) }
    ensures moments { Updates folder.now (D.now depot.old) (D.now depot.new) }
    ensures early { IsEarly result → SameStore (D.now depot.old) (D.now depot.new) }
    ensures cause { UpdateRose (D.now depot.old).faults (D.now depot.new).faults result }
{
    let compared = compare(alloc, depot, folder)?;
    compared.project.kept();
    let prepared = prepare(alloc, &compared)?;
    let summary = put_update(alloc, depot, folder, &compared, &prepared)?;
    Ok(summary)
}
