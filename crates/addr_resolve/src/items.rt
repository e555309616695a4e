// What stands at places: an item is the object that the bundle of its place has under its GUID, copied out of the file.
ghost use Rattle.std.specs.Prelude.{◌≡◌, ◌<◌, ℕ, length, map, All, IfOk, Some};
ghost use Rattle.std.specs.List.{AllZip, slice_get};
ghost use Rattle.addr_base.specs.Images.{Object};
ghost use Rattle.addr_resolve.specs.Items.{AreHeld, IsItemAt, IsItemOf, IsLoaded, Lends, item_view};
ghost use Rattle.addr_resolve.specs.declared.graph.PlaceRow.{PlaceRow};

use crate::graph::PlaceRow;
use addr_base::{Guid, Image, Items, NoMemory, RefTo};
use addr_cab::Cab;
use std::alloc::Global;

/// An asset as it is loaded.
#[derive(Drop)]
pub struct Item {
    pub guid: Guid,
    pub bytes: Items<u8>,
    pub refs: Items<Guid>,
}

fn guids_of(alloc: Global, refs: &[RefTo]) -> Result<Items<Guid>, NoMemory>
    ensures { IfOk result (λ guids. guids ≡ map (λ r. r.guid) refs.now) }
{
    let mut guids = Items::new(alloc);
    for r in refs {
        guids.push(r.guid)?;
    }
    Ok(guids)
}

fn loaded(alloc: Global, guid: Guid, bytes: &[u8], refs: &[RefTo]) -> Result<Item, NoMemory>
    ensures { IfOk result (λ i. IsLoaded guid (record { bytes = bytes.now; refs = refs.now }) (item_view i)) }
{
    let bytes = Items::copy_of(alloc, bytes)?;
    let refs = guids_of(alloc, refs)?;
    Ok(Item { guid, bytes, refs })
}

/// What stands at a place.
fn item_at(alloc: Global, cabs: &[Cab], place: PlaceRow) -> Result<Item, NoMemory>
    requires { (x : Object) × Lends cabs.now place x }
    ensures { IfOk result (λ i. IsItemAt cabs.now place (item_view i)) }
{
    let cab = &cabs[place.bundle as usize];
    match cab.object(&place.guid) {
        Some(found) => {
            let item = loaded(alloc, place.guid, found.bytes, found.refs)?;
            Ok(item)
        }
        None => unreachable!(),
    }
}

/// The items at the places with some numbers, in their order. What is copied takes memory, and nothing else.
pub fn items_of(
    alloc: Global,
    cabs: &[Cab],
    places: &[PlaceRow],
    picks: &[u32],
) -> Result<Items<Item>, NoMemory>
    requires within { All (λ n. n < length places.now) picks.now }
    requires held { AreHeld cabs.now places.now }
    ensures { IfOk result (AllZip (IsItemOf cabs.now places.now) picks.now) }
{
    let mut items = Items::new(alloc);
    for n in picks {
        let item = item_at(alloc, cabs, places[*n as usize])?;
        items.push(item)?;
    }
    Ok(items)
}
