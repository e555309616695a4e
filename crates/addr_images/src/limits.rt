// The limits of a project's placement, tested before any file is made: each count whole, and the first that is passed named.
ghost use Rattle.std.specs.Prelude.{◌≡◌, ◌≤◌, ◌<◌, ◌^◌, length, IfOk, IfErr};
ghost use Rattle.addr_layout.specs.Counts.{IsDepsCountOver, IsMembersCount};
ghost use Rattle.addr_layout.specs.Layout.{IsLayout};
ghost use Rattle.addr_layout.specs.Members.{IsShared};
ghost use Rattle.addr_pack.specs.Placement.{IsPlaced};
ghost use Rattle.addr_project.specs.Limits.{most};
ghost use Rattle.addr_project.specs.declared.limit.Limit.TheVariants as limit;
ghost use Rattle.addr_walks.specs.Rows.{AreBelow, Edge};
ghost use Rattle.addr_images.specs.Limits.{Fits, IsPlanWithin, RefusesCount, RefusesLayout, RefusesPlan, RefusesUpdate, UpdateFits};
ghost use Rattle.addr_images.specs.Sizes.{IsBytesCount};
ghost use Rattle.addr_images.specs.within.FromPlan.{from_plan};
ghost use Rattle.addr_images.specs.declared.limits.LimitErr.TheVariants as errors;

use crate::deps::deps_over;
use crate::sizes::bundle_bytes;
use addr_base::{Items, NoMemory};
use addr_layout::{Layout, deps_count, layout, members_count, placement_is_shared};
use addr_pack::{Plan, PlanErr, plan};
use addr_project::{Limit, Project};
use std::alloc::Global;

/// Why a project isn't built, or a release not updated.
#[derive(Clone, Copy, Debug, PartialEq, Eq)]
pub enum LimitErr {
    /// The first limit that is passed, and the whole count.
    TooLarge { limit: Limit, count: u64 },
    NoMemory,
}

impl From<NoMemory> for LimitErr {
    ghost from_gives = { λ _ e. e ≡ errors.NoMemory };

    fn from(_: NoMemory) -> Self {
        LimitErr::NoMemory
    }
}

impl From<PlanErr> for LimitErr {
    ghost from_gives = { λ e f. f ≡ from_plan e };

    fn from(e: PlanErr) -> Self {
        match e {
            PlanErr::NameTooLong { row: _, length } => LimitErr::TooLarge {
                limit: Limit::BundleName,
                count: length,
            },
            PlanErr::NoMemory => LimitErr::NoMemory,
        }
    }
}

/// Whether a count keeps to its limit.
fn keep(limit: Limit, count: u64) -> Result<(), LimitErr>
    ensures kept { IfOk result (λ _. count ≤ most limit) }
    ensures past { IfErr result (λ e. (e ≡ errors.TooLarge limit count) × (most limit < count)) }
{
    if count > limit.most() {
        return Err(LimitErr::TooLarge { limit, count });
    }
    Ok(())
}

/// Whether the members of all bundles keep to their limit; a kept bundle counts none. No layout is made: a placement whose layout
/// could not be held is refused by its count.
pub fn members_within(alloc: Global, project: &Project, plan: &Plan) -> Result<(), LimitErr>
    requires few { length plan.now.bundles < 2 ^ 32 }
    requires shared { IsShared project.now plan.now }
    ensures fits { IfOk result (λ _. Fits (IsMembersCount project.now plan.now) limit.Members) }
    ensures refused { IfErr result (RefusesCount (IsMembersCount project.now plan.now) limit.Members) }
{
    let count = members_count(alloc, project, plan)?;
    keep(Limit::Members, count)?;
    Ok(())
}

fn deps_within(alloc: Global, plan: &Plan, direct: &[Items<u32>]) -> Result<(), LimitErr>
    requires few { length plan.now.bundles < 2 ^ 31 }
    requires many { length direct.now ≡ length plan.now.bundles }
    requires below { AreBelow direct.now (length direct.now) }
    ensures fits { IfOk result (λ _. Fits (IsDepsCountOver (Edge direct.now) plan.now) limit.Deps) }
    ensures refused { IfErr result (RefusesCount (IsDepsCountOver (Edge direct.now) plan.now) limit.Deps) }
{
    let count = deps_over(alloc, plan, direct)?;
    keep(Limit::Deps, count)?;
    Ok(())
}

fn bytes_within(
    alloc: Global,
    project: &Project,
    plan: &Plan,
    layout: &Layout,
) -> Result<(), LimitErr>
    requires few { length plan.now.bundles < 2 ^ 31 }
    requires shared { IsShared project.now plan.now }
    requires laid { IsLayout project.now plan.now layout.now }
    ensures fits { IfOk result (λ _. Fits (IsBytesCount project.now plan.now) limit.BundleBytes) }
    ensures refused { IfErr result (RefusesCount (IsBytesCount project.now plan.now) limit.BundleBytes) }
{
    let count = bundle_bytes(alloc, project, plan, layout)?;
    keep(Limit::BundleBytes, count)?;
    Ok(())
}

/// The project's own placement within the limits of names, members and dependencies, or the first of these that is passed.
/// No layout is made.
pub fn plan_within(alloc: Global, project: &Project) -> Result<Plan, LimitErr>
    ensures fits { IfOk result (IsPlanWithin project.now) }
    ensures refused { IfErr result (RefusesPlan project.now) }
{
    let placement = plan(alloc, project)?;
    placement_is_shared(project, &placement);
    members_within(alloc, project, &placement)?;
    let count = deps_count(alloc, project, &placement)?;
    keep(Limit::Deps, count)?;
    Ok(placement)
}

/// The layout of a placement whose files keep to their limit together, or that limit. No file is made.
pub fn layout_within(alloc: Global, project: &Project, plan: &Plan) -> Result<Layout, LimitErr>
    requires { IsPlaced project.now plan.now }
    ensures laid { IfOk result (IsLayout project.now plan.now) }
    ensures fits { IfOk result (λ _. Fits (IsBytesCount project.now plan.now) limit.BundleBytes) }
    ensures refused { IfErr result (RefusesLayout project.now plan.now) }
{
    placement_is_shared(project, plan);
    let layout = layout(alloc, project, plan)?;
    bytes_within(alloc, project, plan, &layout)?;
    Ok(layout)
}

/// Whether an update's release keeps to its limits, where its bundles need what their rows of `direct` say: after its members,
/// which `members_within` counts before a layout is made, its dependencies and the bytes of its new files. No file is made.
pub fn update_within(
    alloc: Global,
    project: &Project,
    plan: &Plan,
    layout: &Layout,
    direct: &[Items<u32>],
) -> Result<(), LimitErr>
    requires few { length plan.now.bundles < 2 ^ 31 }
    requires shared { IsShared project.now plan.now }
    requires laid { IsLayout project.now plan.now layout.now }
    requires many { length direct.now ≡ length plan.now.bundles }
    requires below { AreBelow direct.now (length direct.now) }
    requires members { Fits (IsMembersCount project.now plan.now) limit.Members }
    ensures fits { IfOk result (λ _. UpdateFits project.now plan.now (Edge direct.now)) }
    ensures refused { IfErr result (RefusesUpdate project.now plan.now (Edge direct.now)) }
{
    deps_within(alloc, plan, direct)?;
    bytes_within(alloc, project, plan, layout)?;
    Ok(())
}
