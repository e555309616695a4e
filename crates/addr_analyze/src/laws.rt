// That a placement has one list of duplicates, and what a project is like in which each of them is an entry. Nothing runs.
ghost use Rattle.addr_layout.specs.Laws.{AtMostOne};
ghost use Rattle.addr_layout.specs.Layout.{IsLayout};
ghost use Rattle.addr_pack.specs.Placement.{IsPlaced};
ghost use Rattle.addr_project.specs.Model.{Project as Contents};
ghost use Rattle.addr_analyze.specs.Duplicates.{AreDuplicates};
ghost use Rattle.addr_analyze.specs.Isolation.{IsIsolated, NoneCopied, ShowsOwn, ShowsSame};

use crate::duplicate::Duplicate;
use addr_layout::Layout;
use addr_pack::Plan;
use addr_project::Project;

/// A placement has at most one list of duplicates, whoever makes it.
pub fn duplicates_are_one(project: &Project, plan: &Plan)
    ensures { AtMostOne (AreDuplicates project.now plan.now) }
{}

/// A project in which each duplicate of another one is an entry, in a group of its own, has no duplicate. Under each text that
/// isn't the digits of one it shows the same, and under such digits the same and then the duplicate's own row. There is at most
/// one such project.
pub fn isolation_laws(project: &Project, plan: &Plan, layout: &Layout, found: &[Duplicate])
    requires placed { IsPlaced project.now plan.now }
    requires laid { IsLayout project.now plan.now layout.now }
    requires found { AreDuplicates project.now plan.now found.now }
    ensures none { (q : Contents) → IsIsolated project.now found.now q → NoneCopied q }
    ensures one { AtMostOne (IsIsolated project.now found.now) }
    ensures owns { (q : Contents) → IsIsolated project.now found.now q → ShowsOwn project.now found.now q }
    ensures shows { (q : Contents) → IsIsolated project.now found.now q → ShowsSame project.now found.now q }
{
    project.kept();
}
