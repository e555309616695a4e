// That a second isolation finds nothing. Nothing runs.
ghost use Rattle.std.specs.Prelude.{◌≡◌, List, []};
ghost use Rattle.addr_analyze.specs.Duplicates.{AreDuplicates};
ghost use Rattle.addr_analyze.specs.Isolation.{IsIsolated};
ghost use Rattle.addr_analyze.specs.declared.duplicate.Duplicate.{Duplicate as Found};
ghost use Rattle.addr_layout.specs.Layout.{IsLayout};
ghost use Rattle.addr_pack.specs.Placement.{IsPlaced};
ghost use Rattle.addr_pack.specs.declared.bundles.Plan.{Plan as Placement};
ghost use Rattle.addr_project.specs.Model.{Project as Contents};

use addr_analyze::{Duplicate, isolation_laws};
use addr_layout::Layout;
use addr_pack::Plan;
use addr_project::Project;

/// The isolated project has no duplicate in its placement, so that a second isolation has nothing to put.
pub fn isolated_has_none(project: &Project, plan: &Plan, layout: &Layout, found: &[Duplicate])
    requires placed { IsPlaced project.now plan.now }
    requires laid { IsLayout project.now plan.now layout.now }
    requires found { AreDuplicates project.now plan.now found.now }
    ensures { (q : Contents) (other : Placement) (again : List Found) → IsIsolated project.now found.now q
        → IsPlaced q other → AreDuplicates q other again → again ≡ [] }
{
    isolation_laws(project, plan, layout, found);
}
