// What an update puts, decided and measured before the first put: its placement, what stands in each new bundle, and what each needs.
ghost use Rattle.std.specs.Prelude.{◌≡◌, ◌<◌, ◌^◌, length, IfErr, IfOk};
ghost use Rattle.addr_state.specs.Sound.{IsSound};
ghost use Rattle.addr_check.specs.Comparing.{update_of};
ghost use Rattle.addr_moves.specs.Fates.{AreFates};
ghost use Rattle.addr_pack.specs.LongNames.{NamesFit};
ghost use Rattle.addr_pack.specs.Placement.{IsPlaced};
ghost use Rattle.addr_images.specs.Limits.{Fits, RefusesCount};
ghost use Rattle.addr_layout.specs.Counts.{IsMembersCount};
ghost use Rattle.addr_layout.specs.Layout.{IsLayout};
ghost use Rattle.addr_layout.specs.Members.{IsShared};
ghost use Rattle.addr_project.specs.declared.limit.Limit.TheVariants as limit;
ghost use Rattle.addr_patch.specs.within.Preparing.{IsDecided, IsNeeded, IsPrepared, RefusesPreparing};
ghost use Rattle.addr_update.specs.Placement.{IsUpdated};

use crate::error::UpdateErr;
use addr_base::{Items, NoMemory};
use addr_check::Compared;
use addr_held::rows_of_state;
use addr_images::{LimitErr, members_within, update_within};
use addr_layout::{Layout, layout};
use addr_locate::BundleRow;
use addr_moves::split_of;
use addr_moving::plan_moved;
use addr_needs::{needs_of, old_numbers};
use addr_pack::{Plan, name_laws};
use addr_project::Project;
use addr_update::{entries_split, moved_placement_is_shared};
use std::alloc::Global;

/// An update that is ready to be put: its placement with the layout of the new bundles; beside each bundle the number of the state's
/// bundle that it keeps, and the bundles that it needs; the rows of the state's bundles; and how many entries move.
#[derive(Drop)]
pub(crate) struct Prepared {
    pub plan: Plan,
    pub layout: Layout,
    pub olds: Items<Option<u32>>,
    pub needs: Items<Items<u32>>,
    pub rows: Items<BundleRow>,
    pub moved: u32,
}

/// An update's placement, and how many entries move.
#[derive(Drop)]
pub(crate) struct Decided {
    pub plan: Plan,
    pub moved: u32,
}

/// Splits what is kept from what moves, and places both.
fn decide(alloc: Global, compared: &Compared) -> Result<Decided, NoMemory>
    requires placed { IsPlaced compared.now.project compared.now.now }
    requires sound { IsSound compared.now.release.state }
    requires fates { AreFates (update_of compared.now) compared.now.fates }
    ensures { IfOk result (IsDecided (update_of compared.entry.now)) }
{
    let project = &compared.project;
    project.kept();
    name_laws(project);
    entries_split(project);
    moved_placement_is_shared(project);
    let fates = compared.fates.as_slice();
    let split = split_of(alloc, project, &compared.release.state, fates)?;
    let moved = split.moved.as_slice();
    let plan = plan_moved(alloc, project, &compared.now, split.kept.as_slice(), moved)?;
    Ok(Decided {
        plan,
        moved: moved.len() as u32,
    })
}

/// The layout of a placement whose members keep to their limit; where they don't, no layout is made.
fn laid_within(alloc: Global, project: &Project, plan: &Plan) -> Result<Layout, LimitErr>
    requires few { length plan.now.bundles < 2 ^ 31 }
    requires shared { IsShared project.now plan.now }
    ensures laid { IfOk result (IsLayout project.now plan.now) }
    ensures fits { IfOk result (λ _. Fits (IsMembersCount project.now plan.now) limit.Members) }
    ensures refused { IfErr result (RefusesCount (IsMembersCount project.now plan.now) limit.Members) }
{
    members_within(alloc, project, plan)?;
    let layout = layout(alloc, project, plan)?;
    Ok(layout)
}

/// Beside each bundle of a placement the number of the state's bundle that it keeps, and the bundles that it needs.
#[derive(Drop)]
pub(crate) struct Needed {
    pub olds: Items<Option<u32>>,
    pub needs: Items<Items<u32>>,
}

/// Looks up what each bundle of an update's placement keeps and needs.
fn numbers_and_needs(
    alloc: Global,
    compared: &Compared,
    plan: &Plan,
    layout: &Layout,
) -> Result<Needed, NoMemory>
    requires placed { IsPlaced compared.now.project compared.now.now }
    requires sound { IsSound compared.now.release.state }
    requires many { length compared.now.release.cabs ≡ length compared.now.release.state.bundles }
    requires updated { IsUpdated (update_of compared.now) plan.now }
    requires few { length plan.now.bundles < 2 ^ 31 }
    requires laid { IsLayout compared.now.project plan.now layout.now }
    ensures { IfOk result (IsNeeded (update_of compared.entry.now) plan.now) }
{
    let release = &compared.release;
    let olds = old_numbers(alloc, plan, &release.state)?;
    let needs = needs_of(
        alloc,
        &compared.project,
        plan,
        layout,
        olds.as_slice(),
        release.cabs.as_slice(),
    )?;
    Ok(Needed { olds, needs })
}

/// Decides and measures an update, or tells the first limit that it passes: of members before the layout is made, then of
/// dependencies and of bytes. No file is made.
pub(crate) fn prepare(alloc: Global, compared: &Compared) -> Result<Prepared, UpdateErr>
    requires placed { IsPlaced compared.now.project compared.now.now }
    requires names { NamesFit compared.now.project }
    requires sound { IsSound compared.now.release.state }
    requires many { length compared.now.release.cabs ≡ length compared.now.release.state.bundles }
    requires fates { AreFates (update_of compared.now) compared.now.fates }
    ensures prepared { IfOk result (IsPrepared (update_of compared.exit.now)) }
    ensures refused { IfErr result (RefusesPreparing (update_of compared.exit.now)) }
{
    let decided = decide(alloc, compared)?;
    let layout = laid_within(alloc, &compared.project, &decided.plan)?;
    let needed = numbers_and_needs(alloc, compared, &decided.plan, &layout)?;
    let needs = needed.needs.as_slice();
    update_within(alloc, &compared.project, &decided.plan, &layout, needs)?;
    let rows = rows_of_state(alloc, &compared.release.state)?;
    Ok(Prepared {
        plan: decided.plan,
        layout,
        olds: needed.olds,
        needs: needed.needs,
        rows,
        moved: decided.moved,
    })
}
