// What tells of a release beside its bundles: the bytes of its content state and of its catalogue.
ghost use Rattle.std.specs.Prelude.{◌≡◌, length, map, List, IfOk};
ghost use Rattle.addr_layout.specs.Layout.{IsLayout};
ghost use Rattle.addr_pack.specs.LongNames.{NamesFit};
ghost use Rattle.addr_pack.specs.Placement.{IsPlaced};
ghost use Rattle.addr_release.specs.Built.{IsBundleOf, ReleaseBundle};
ghost use Rattle.addr_walks.specs.Places.{EachAt};
ghost use Rattle.addr_images.specs.States.{AreBundleRows};
ghost use Rattle.addr_build.specs.within.Index.{IndexOf, IsStateText};

use addr_base::{Items, NoMemory, digest};
use addr_images::{catalogue_of, state_of};
use addr_layout::Layout;
use addr_locate::BundleRow;
use addr_pack::Plan;
use addr_project::Project;
use addr_state::write_state;
use std::alloc::Global;

/// The bytes of a content state, and of the catalogue that names it.
#[derive(Drop)]
pub(crate) struct Index {
    pub state: Items<u8>,
    pub catalogue: Items<u8>,
}

fn state_text(
    alloc: Global,
    project: &Project,
    plan: &Plan,
    layout: &Layout,
    rows: &[BundleRow],
) -> Result<Vec<u8>, NoMemory>
    requires placed { IsPlaced project.now plan.now }
    requires fit { NamesFit project.now }
    requires laid { IsLayout project.now plan.now layout.now }
    requires rows { AreBundleRows project.now plan.now rows.now }
    ensures { IfOk result (λ bytes. IsStateText project.now plan.now rows.now bytes.items) }
{
    let state = state_of(alloc, project, plan, layout, rows)?;
    let bytes = write_state(alloc, &state)?;
    Ok(bytes)
}

/// The bytes of state and catalogue of the release whose bundles have these rows.
pub(crate) fn index_of(
    alloc: Global,
    project: &Project,
    plan: &Plan,
    layout: &Layout,
    rows: Items<BundleRow>,
) -> Result<Index, NoMemory>
    requires placed { IsPlaced project.now plan.now }
    requires fit { NamesFit project.now }
    requires laid { IsLayout project.now plan.now layout.now }
    requires rows { AreBundleRows project.now plan.now rows }
    ensures { IfOk result (λ made. (bundles : List ReleaseBundle) → EachAt (IsBundleOf project.now plan.now) bundles
        → length bundles ≡ length plan.now.bundles → rows ≡ map (λ m. m.row) bundles
        → IndexOf project.now plan.now bundles made.state made.catalogue) }
{
    let state = state_text(alloc, project, plan, layout, rows.as_slice())?;
    let named = digest(&state);
    let catalogue = catalogue_of(alloc, project, plan, layout, rows, named)?;
    Ok(Index {
        state: Items::from_vec(state),
        catalogue: Items::from_vec(catalogue),
    })
}
