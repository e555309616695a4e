// The placement of an update: its bundles are gathered kind by kind and sorted by their names, which differ.
ghost use Rattle.std.specs.Prelude.{◌≡◌, ◌++◌, ◌∷◌, [], map, IfOk, OnOk};
ghost use Rattle.std.specs.List.{filter};
ghost use Rattle.std.specs.List.Sorted.{IsPermutation, IsSortedBy};
ghost use Rattle.std.specs.Ordering.{is_lt};
ghost use Rattle.addr_moving.specs.Kept.{AreKept};
ghost use Rattle.addr_moving.specs.within.Gathered.{is_unfixed, moved_bundles};
ghost use Rattle.addr_pack.specs.Placement.{IsPlaced};
ghost use Rattle.addr_update.specs.Placement.{IsUpdatePlan, by_name, kept_bundle, moved_bundle};

use addr_base::{Items, NoMemory, Text};
use addr_pack::{Plan, PlanBundle, name_laws};
use addr_project::Project;
use addr_update::KeptBundle;
use std::alloc::Global;

/// The name of the bundle that moved entries make.
const MOVED_NAME: &str = "Content~20Update_assets_all";

/// Whether the group of a bundle isn't fixed.
fn is_unfixed(project: &Project, bundle: &PlanBundle) -> bool
    ensures { result ≡ is_unfixed project.now bundle.now }
{
    match project.groups().get(bundle.group as usize) {
        Some(group) => !group.fixed,
        None => false,
    }
}

fn copied(alloc: Global, bundle: &PlanBundle) -> Result<PlanBundle, NoMemory>
    ensures { IfOk result (λ copy. copy ≡ bundle.now) }
{
    let name = Text::copy_of(alloc, bundle.name.as_str())?;
    let entries = Items::copy_of(alloc, bundle.entries.as_slice())?;
    Ok(PlanBundle {
        name,
        group: bundle.group,
        kept: bundle.kept,
        entries,
    })
}

/// Adds a bundle whose group isn't fixed.
fn add_unfixed(
    alloc: Global,
    bundles: &mut Vec<PlanBundle>,
    project: &Project,
    bundle: &PlanBundle,
) -> Result<(), NoMemory>
    ensures { OnOk result (bundles.new.items ≡ bundles.old.items ++ filter (is_unfixed project.now) (bundle.now ∷ [])) }
{
    if is_unfixed(project, bundle) {
        let copy = copied(alloc, bundle)?;
        bundles.push(copy)?;
    }
    Ok(())
}

/// The project's own bundles of groups that aren't fixed.
fn unfixed_of(alloc: Global, project: &Project, now: &Plan) -> Result<Vec<PlanBundle>, NoMemory>
    ensures { IfOk result (λ bundles. bundles.items ≡ filter (is_unfixed project.now) now.now.bundles) }
{
    let mut bundles: Vec<PlanBundle> = Vec::new(alloc);
    let own = now.bundles.as_slice();
    for bundle in own {
        add_unfixed(alloc, &mut bundles, project, bundle)?;
    }
    Ok(bundles)
}

/// The bundle of the entries that move.
fn moved_bundle(alloc: Global, project: &Project, moved: &[u32]) -> Result<PlanBundle, NoMemory>
    ensures { IfOk result (λ bundle. bundle ≡ moved_bundle project.now moved.now) }
{
    project.kept();
    let name = Text::copy_of(alloc, MOVED_NAME)?;
    let entries = Items::copy_of(alloc, moved)?;
    Ok(PlanBundle {
        name,
        group: project.groups().len() as u32,
        kept: false,
        entries,
    })
}

/// Adds that bundle, where any entry moves.
fn add_moved(
    alloc: Global,
    bundles: &mut Vec<PlanBundle>,
    project: &Project,
    moved: &[u32],
) -> Result<(), NoMemory>
    ensures { OnOk result (bundles.new.items ≡ bundles.old.items ++ moved_bundles project.now moved.now) }
{
    if !moved.is_empty() {
        let bundle = moved_bundle(alloc, project, moved)?;
        bundles.push(bundle)?;
    }
    Ok(())
}

fn bundle_of(alloc: Global, kept: &KeptBundle) -> Result<PlanBundle, NoMemory>
    ensures { IfOk result (λ bundle. bundle ≡ kept_bundle kept.now) }
{
    let name = Text::copy_of(alloc, kept.name.as_str())?;
    let entries = Items::copy_of(alloc, kept.entries.as_slice())?;
    Ok(PlanBundle {
        name,
        group: kept.group,
        kept: true,
        entries,
    })
}

fn add_kept(
    alloc: Global,
    bundles: &mut Vec<PlanBundle>,
    kept: &[KeptBundle],
) -> Result<(), NoMemory>
    ensures { OnOk result (bundles.new.items ≡ bundles.old.items ++ map kept_bundle kept.now) }
{
    for old in kept {
        let bundle = bundle_of(alloc, old)?;
        bundles.push(bundle)?;
    }
    Ok(())
}

/// The bundles in the order of their names.
fn in_order(bundles: Vec<PlanBundle>) -> Vec<PlanBundle>
    ensures sorted { IsSortedBy (λ x y. is_lt (by_name x y)) result.items }
    ensures same { IsPermutation bundles.items result.items }
{
    let mut sorted = bundles;
    sorted.sort_unstable_by(|a, b| a.name.as_bytes().cmp(b.name.as_bytes()));
    sorted
}

/// The bundles of an update, in the order of their names: the project's own whose groups aren't fixed, that of the moved
/// entries where there are any, whose group has the number of groups, and the kept ones with the entries that stay in them.
/// `now` is the project's own placement. A sort by names; all texts and numbers are copied.
pub fn plan_moved(
    alloc: Global,
    project: &Project,
    now: &Plan,
    kept: &[KeptBundle],
    moved: &[u32],
) -> Result<Plan, NoMemory>
    requires placed { IsPlaced project.now now.now }
    requires kept { AreKept project.now kept.now }
    ensures { IfOk result (IsUpdatePlan project.now now.now kept.now moved.now) }
{
    project.kept();
    name_laws(project);
    let mut bundles = unfixed_of(alloc, project, now)?;
    add_moved(alloc, &mut bundles, project, moved)?;
    add_kept(alloc, &mut bundles, kept)?;
    let sorted = in_order(bundles);
    Ok(Plan {
        bundles: Items::from_vec(sorted),
    })
}
