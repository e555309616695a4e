// Laws of layouts, for the crates that build: each call's contract is a law, and nothing runs.
ghost use Rattle.std.specs.Prelude.{◌≡◌, ◌<◌, ◌^◌, ℕ, List, length};
ghost use Rattle.addr_pack.specs.Placement.{IsPlaced};
ghost use Rattle.addr_walks.specs.Closure.{IsDeps, BeginsOnce};
ghost use Rattle.addr_layout.specs.Agreement.{WalkAgrees};
ghost use Rattle.addr_walks.specs.Rows.{AreBelow, Edge};
ghost use Rattle.addr_layout.specs.Counts.{IsDepsCount, IsMembersCount};
ghost use Rattle.addr_layout.specs.Direct.{direct_lists, Closes, ClosesNeeds, IsAllNew};
ghost use Rattle.addr_layout.specs.KeptBundles.{HaveDirect, KeptWalksAgree, NeedsWith};
ghost use Rattle.addr_layout.specs.Laws.{AtMostOne, LeadsWell};
ghost use Rattle.addr_layout.specs.Layout.{IsLayout};
ghost use Rattle.addr_layout.specs.Members.{IsShared};
ghost use Rattle.addr_layout.specs.Needs.{Needs};

use crate::model::Layout;
use addr_base::Items;
use addr_pack::Plan;
use addr_project::Project;

/// A project's own placement may be laid out: its bundles are few, each entry stands in exactly one, and none is kept.
pub fn placement_is_shared(project: &Project, plan: &Plan)
    requires { IsPlaced project.now plan.now }
    ensures few { length plan.now.bundles < 2 ^ 31 }
    ensures shared { IsShared project.now plan.now }
    ensures new { IsAllNew plan.now }
{
    project.kept();
}

/// From an entry in its bundle, following references through bundles comes to exactly the assets that the project reaches,
/// each a member where one stands, in bundles that are all among the first one's dependencies.
pub fn walk_agrees(project: &Project, plan: &Plan)
    ensures { WalkAgrees project.now plan.now }
{}

/// A bundle's dependency list begins with the bundle itself and has no repeat.
pub fn dependencies_begin_once(project: &Project, plan: &Plan)
    ensures { (b : ℕ) (deps : List ℕ) → IsDeps (Needs project.now plan.now) b deps → BeginsOnce b deps }
{}

/// The direct lists of a layout may be closed; where no bundle is kept, that gives each bundle's dependency list.
pub fn direct_closes(project: &Project, plan: &Plan, layout: &Layout)
    requires { IsLayout project.now plan.now layout.now }
    ensures as_many { length (direct_lists layout.now) ≡ length plan.now.bundles }
    ensures below { AreBelow (direct_lists layout.now) (length (direct_lists layout.now)) }
    ensures closes { IsAllNew plan.now → ClosesNeeds project.now plan.now layout.now }
{}

/// A reference of a member that stays in its bundle leads to a member of it, and one that leads elsewhere to a bundle of the
/// direct list.
pub fn references_are_led(project: &Project, plan: &Plan, layout: &Layout)
    requires { IsLayout project.now plan.now layout.now }
    ensures { LeadsWell project.now layout.now }
{
    project.kept();
}

/// A placement has at most one layout: the same members, homes and direct lists, whoever makes it.
pub fn layout_is_one(project: &Project, plan: &Plan)
    requires { IsShared project.now plan.now }
    ensures { AtMostOne (IsLayout project.now plan.now) }
{
    project.kept();
}

/// A placement has at most one count of members, and one of dependencies.
pub fn counts_are_one(project: &Project, plan: &Plan)
    ensures members { AtMostOne (IsMembersCount project.now plan.now) }
    ensures deps { AtMostOne (IsDepsCount project.now plan.now) }
{}

/// Where some bundles are kept, whatever is said of what they hold, where their references lead and which bundles they
/// need, if it fits the project: walks agree as `walk_agrees` says where none is kept.
pub fn kept_walk_agrees(project: &Project, plan: &Plan)
    ensures { KeptWalksAgree project.now plan.now }
{}

/// Rows that have the direct list of each new bundle, and for a kept one what its file names: closing them gives each
/// bundle's dependency list over these needs.
pub fn kept_closes(project: &Project, plan: &Plan, layout: &Layout, rows: &[Items<u32>])
    requires laid { IsLayout project.now plan.now layout.now }
    requires rows { HaveDirect plan.now layout.now rows.now }
    ensures { Closes (NeedsWith (Edge rows.now) project.now plan.now) rows.now }
{}
