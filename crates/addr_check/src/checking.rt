// `check`: the project and the release of a folder are read, and it is told what an update would move.
ghost use Rattle.std.specs.Prelude.{◌≡◌, ◌<◌, ◌^◌, IfErr, IfOk, IfSome, length};
ghost use Rattle.addr_base.specs.Files.{SameStore};
ghost use Rattle.addr_moves.specs.Fates.{AreFates, comparing};
ghost use Rattle.addr_held.specs.Opening.{was_of};
ghost use Rattle.addr_pack.specs.LongNames.{NamesFit};
ghost use Rattle.addr_pack.specs.Placement.{IsPlaced};
ghost use Rattle.addr_state.specs.Sound.{IsSound};
ghost use Rattle.addr_check.specs.Checking.{CheckRose, Checks};
ghost use Rattle.addr_check.specs.Comparing.{Compares, update_of};
ghost use Rattle.addr_check.specs.within.Steps.{IsOf, ReadsBoth, RefusesComparing};

use crate::error::CheckErr;
use addr_base::{Depot, Items, NoMemory};
use addr_held::{Release, open_release, rows_of_state};
use addr_layout::placement_is_shared;
use addr_moves::{Fate, fates_of, moves_of};
use addr_pack::{Plan, plan};
use addr_project::Project;
use addr_update::Move;
use std::alloc::Global;

/// A folder's project, and the release that it holds.
#[derive(Drop)]
struct Folder {
    project: Project,
    release: Release,
}

fn read_folder<D: Depot>(alloc: Global, depot: &mut D, folder: &str) -> Result<Folder, CheckErr>
    ensures reads { IfSome (D.now depot.old).files (λ files. ReadsBoth (λ f. f.project) (λ f. f.release) files folder.now result) }
    ensures many { IfOk result (λ f. length f.release.cabs ≡ length f.release.state.bundles) }
    ensures few { IfOk result (λ f. length f.release.cabs < 2 ^ 32) }
    ensures sound { IfOk result (λ f. IsSound f.release.state) }
    ensures same { SameStore (D.now depot.old) (D.now depot.new) }
    ensures cause { CheckRose (D.now depot.old).faults (D.now depot.new).faults result }
{
    let project = Project::read(alloc, depot, folder)?;
    let release = open_release(alloc, depot, folder)?;
    Ok(Folder { project, release })
}

/// What an update of a folder compares: its project with the project's own placement, and the release that the folder holds; and
/// beside each entry of the project what becomes of it.
#[derive(Drop)]
pub struct Compared {
    pub project: Project,
    pub now: Plan,
    pub release: Release,
    pub fates: Items<Fate>,
}

/// What becomes of each entry of a project.
fn fates_between(
    alloc: Global,
    project: &Project,
    now: &Plan,
    release: &Release,
) -> Result<Items<Fate>, NoMemory>
    requires placed { IsPlaced project.now now.now }
    requires many { length release.now.cabs ≡ length release.now.state.bundles }
    requires few { length release.now.cabs < 2 ^ 32 }
    requires sound { IsSound release.now.state }
    ensures { IfOk result (AreFates (comparing release.now.state (was_of release.now) release.now.catalogue.locator project.now now.now)) }
{
    placement_is_shared(project, now);
    let rows = rows_of_state(alloc, &release.state)?;
    let fates = fates_of(
        alloc,
        project,
        now,
        &release.state,
        release.cabs.as_slice(),
        rows.as_slice(),
        &release.catalogue.locator,
    )?;
    Ok(fates)
}

/// The same with the project's own placement.
fn compared_of(alloc: Global, folder: Folder) -> Result<Compared, CheckErr>
    requires many { length folder.release.cabs ≡ length folder.release.state.bundles }
    requires few { length folder.release.cabs < 2 ^ 32 }
    requires sound { IsSound folder.release.state }
    ensures same { IfOk result (IsOf folder.project folder.release) }
    ensures placed { IfOk result (λ c. IsPlaced c.project c.now) }
    ensures names { IfOk result (λ c. NamesFit c.project) }
    ensures fates { IfOk result (λ c. AreFates (update_of c) c.fates) }
    ensures refused { IfErr result (RefusesComparing folder.project) }
{
    let now = plan(alloc, &folder.project)?;
    let fates = fates_between(alloc, &folder.project, &now, &folder.release)?;
    Ok(Compared {
        project: folder.project,
        now,
        release: folder.release,
        fates,
    })
}

/// Reads the project and the release of a folder, and decides what becomes of each entry. The project is read, then the catalogue,
/// the content state that it names, and the state's bundles, each once; nothing is put. Memory for the project and all files of the
/// state.
pub fn compare<D: Depot>(alloc: Global, depot: &mut D, folder: &str) -> Result<Compared, CheckErr>
    ensures compares { IfSome (D.now depot.old).files (λ files. Compares files folder.now result) }
    // What later calls over it ask for.
    ensures placed { IfOk result (λ c. IsPlaced c.project c.now) }
    ensures names { IfOk result (λ c. NamesFit c.project) }
    ensures sound { IfOk result (λ c. IsSound c.release.state) }
    ensures many { IfOk result (λ c. length c.release.cabs ≡ length c.release.state.bundles) }
    ensures few { IfOk result (λ c. length c.release.cabs < 2 ^ 32) }
    ensures fates { IfOk result (λ c. AreFates (update_of c) c.fates) }
    ensures same { SameStore (D.now depot.old) (D.now depot.new) }
    ensures cause { CheckRose (D.now depot.old).faults (D.now depot.new).faults result }
{
    let read = read_folder(alloc, depot, folder)?;
    let compared = compared_of(alloc, read)?;
    Ok(compared)
}

/// What an update of the folder would move: the entries of fixed groups that can't stay where they are, in the order of the project,
/// each with its reason. The project is read, then the catalogue, the content state that it names, and the state's bundles, each
/// once; nothing is put. Memory for the project and all files of the state.
pub fn check<D: Depot>(alloc: Global, depot: &mut D, folder: &str) -> Result<Items<Move>, CheckErr>
    ensures answers { IfSome (D.now depot.old).files (λ files. Checks files folder.now result) }
    ensures same { SameStore (D.now depot.old) (D.now depot.new) }
    ensures cause { CheckRose (D.now depot.old).faults (D.now depot.new).faults result }
{
    let compared = compare(alloc, depot, folder)?;
    let moves = moves_of(alloc, &compared.project, compared.fates.as_slice())?;
    Ok(moves)
}
