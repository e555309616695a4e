// The catalogue of a release as bytes.
ghost use Rattle.std.specs.Prelude.{◌≡◌, ◌<◌, ◌^◌, length, map, IfOk};
ghost use Rattle.std.specs.List.{AllZip};
ghost use Rattle.addr_catalog.specs.ReadsAlike.{ReadsAlike};
ghost use Rattle.addr_catalog.specs.Written.{catalogue_text};
ghost use Rattle.addr_layout.specs.Layout.{IsLayout};
ghost use Rattle.addr_locate.specs.Rows.{rows_of};
ghost use Rattle.addr_pack.specs.Placement.{IsPlaced};
ghost use Rattle.addr_release.specs.Built.{IsEntryRowAs};
ghost use Rattle.addr_walks.specs.Once.{AreOnce};
ghost use Rattle.addr_walks.specs.Rows.{AreBelow, Edge};
ghost use Rattle.addr_images.specs.Catalogues.{IsCatalogueOf, catalogue_for};
ghost use Rattle.addr_images.specs.States.{AreBundleRows};

use crate::entries::entries_over;
use addr_base::{Digest, Items, NoMemory};
use addr_catalog::{Catalogue, can_write, write_catalog};
use addr_layout::{Layout, direct_closes, placement_is_shared};
use addr_locate::{BundleRow, Locator, PlainAsset, of_rows};
use addr_pack::Plan;
use addr_project::Project;
use std::alloc::Global;

/// The rows as a locator.
fn locator_of(
    alloc: Global,
    project: &Project,
    plan: &Plan,
    direct: &[Items<u32>],
    rows: Items<BundleRow>,
    assets: Vec<PlainAsset>,
) -> Result<Locator, NoMemory>
    requires few { length plan.now.bundles < 2 ^ 31 }
    requires many { length direct.now ≡ length plan.now.bundles }
    requires below { AreBelow direct.now (length direct.now) }
    requires rows { length rows ≡ length plan.now.bundles }
    requires assets { AllZip (IsEntryRowAs project.now plan.now (Edge direct.now)) project.now.entries assets.items }
    ensures { IfOk result (λ locator. locator ≡ rows_of rows assets.items) }
{
    project.kept();
    let locator = of_rows(alloc, rows.into_vec(), assets)?;
    Ok(locator)
}

/// The one text of a catalogue whose bundles need what their rows of `direct` say; it names a state, or none. Within the limits
/// of a project and of its placement the tables of a catalogue stay below their bound of 2^31 bytes; that is argued in
/// docs/DECISIONS.md and not proved, so a catalogue past it would be told as want of memory.
pub fn catalogue_over(
    alloc: Global,
    project: &Project,
    plan: &Plan,
    direct: &[Items<u32>],
    rows: Items<BundleRow>,
    assets: Vec<PlainAsset>,
    state: Option<Digest>,
) -> Result<Vec<u8>, NoMemory>
    requires few { length plan.now.bundles < 2 ^ 31 }
    requires many { length direct.now ≡ length plan.now.bundles }
    requires below { AreBelow direct.now (length direct.now) }
    requires rows { length rows ≡ length plan.now.bundles }
    requires apart { AreOnce (map (λ row. row.key) rows) }
    requires assets { AllZip (IsEntryRowAs project.now plan.now (Edge direct.now)) project.now.entries assets.items }
    ensures text { IfOk result (λ bytes. bytes.items ≡ catalogue_text (catalogue_for rows assets.items state)) }
    // It is read as alike rows, with the same state.
    ensures alike { IfOk result (λ bytes. ReadsAlike bytes.items (catalogue_for rows assets.items state)) }
{
    let locator = locator_of(alloc, project, plan, direct, rows, assets)?;
    if !can_write(alloc, &locator)? {
        return Err(NoMemory);
    }
    let catalogue = Catalogue { locator, state };
    let bytes = write_catalog(alloc, &catalogue)?;
    Ok(bytes)
}

/// The catalogue of a full build, which names its state.
pub fn catalogue_of(
    alloc: Global,
    project: &Project,
    plan: &Plan,
    layout: &Layout,
    rows: Items<BundleRow>,
    state: Digest,
) -> Result<Vec<u8>, NoMemory>
    requires placed { IsPlaced project.now plan.now }
    requires laid { IsLayout project.now plan.now layout.now }
    requires rows { AreBundleRows project.now plan.now rows }
    ensures { IfOk result (λ bytes. IsCatalogueOf project.now plan.now rows state bytes.items) }
{
    placement_is_shared(project, plan);
    direct_closes(project, plan, layout);
    let direct = layout.direct(alloc)?;
    let direct = direct.as_slice();
    let assets = entries_over(alloc, project, plan, direct)?;
    let bytes = catalogue_over(alloc, project, plan, direct, rows, assets, Some(state))?;
    Ok(bytes)
}
