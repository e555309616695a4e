// The items of a walk: of each GUID the object in the least bundle, copied out of the image.
ghost use Rattle.std.specs.Prelude.{◌≡◌, ◌↔◌, ◌++◌, ◌∷◌, [], List, Some, None, map, IfOk, IsTrue, OnOk};
ghost use Rattle.std.specs.List.{Contains};
ghost use Rattle.std.specs.List.Sorted.{IsStrictlySortedBy};
ghost use Rattle.addr_history.specs.Unfolding.{item_of, object_at};
ghost use Rattle.addr_history.specs.declared.reading.Place.{Place};
ghost use Rattle.addr_objects.specs.Objects.{objects_in};
ghost use Rattle.addr_objects.specs.within.Search.{IsItemAt, IsLast, Picks, place_cmp};

use crate::reading::lent;
use addr_base::{BundleNo, Guid, Image, Items, NoMemory, RefTo, is_same};
use addr_history::{Item2, Place};
use std::alloc::Global;

fn guids_of(alloc: Global, refs: &[RefTo]) -> Result<Items<Guid>, NoMemory>
    ensures { IfOk result (λ guids. guids ≡ map (λ r. r.guid) refs.now) }
{
    let mut guids = Items::new(alloc);
    for r in refs {
        guids.push(r.guid)?;
    }
    Ok(guids)
}

fn copied(alloc: Global, guid: Guid, bytes: &[u8], refs: &[RefTo]) -> Result<Item2, NoMemory>
    ensures { IfOk result (λ i. i ≡ item_of guid (record { bytes = bytes.now; refs = refs.now })) }
{
    let bytes = Items::copy_of(alloc, bytes)?;
    let refs = guids_of(alloc, refs)?;
    Ok(Item2 { guid, bytes, refs })
}

/// What a place holds.
fn item_at<I: Image + Drop>(
    alloc: Global,
    images: &[Option<I>],
    place: Place,
) -> Result<Item2, NoMemory>
    requires { object_at (objects_in I.object_of images.now) place ≡ None → ⊥ }
    ensures { IfOk result (IsItemAt (objects_in I.object_of images.now) place) }
{
    match lent(images, BundleNo(place.bundle), &place.guid) {
        Some(object) => {
            let item = copied(alloc, place.guid, object.bytes, object.refs)?;
            Ok(item)
        }
        None => unreachable!(),
    }
}

fn is_last(last: Option<Guid>, guid: Guid) -> bool
    ensures { IsTrue result ↔ (last ≡ Some guid) }
{
    match last {
        None => false,
        Some(before) => is_same(&before.0, &guid.0),
    }
}

/// Adds the item at a place, where the last place before it had another GUID.
fn add_item<I: Image + Drop>(
    alloc: Global,
    images: &[Option<I>],
    items: &mut Items<Item2>,
    last: Option<Guid>,
    place: Place,
) -> Result<(), NoMemory>
    requires { object_at (objects_in I.object_of images.now) place ≡ None → ⊥ }
    ensures { OnOk result ((places : List Place) → IsStrictlySortedBy place_cmp (places ++ place ∷ [])
        → IsLast places last → Picks (objects_in I.object_of images.now) places items.old
        → Picks (objects_in I.object_of images.now) (places ++ place ∷ []) items.new) }
{
    if !is_last(last, place.guid) {
        let item = item_at(alloc, images, place)?;
        items.push(item)?;
    }
    Ok(())
}

/// The items at some places, one for each GUID. What is copied takes memory.
pub fn items_of<I: Image + Drop>(
    alloc: Global,
    images: &[Option<I>],
    places: &[Place],
) -> Result<Items<Item2>, NoMemory>
    requires rising { IsStrictlySortedBy place_cmp places.now }
    requires held { (q : Place) → Contains places.now q → object_at (objects_in I.object_of images.now) q ≡ None → ⊥ }
    ensures { IfOk result (Picks (objects_in I.object_of images.now) places.now) }
{
    let mut items = Items::new(alloc);
    let mut last = None;
    for place in places {
        add_item(alloc, images, &mut items, last, *place)?;
        last = Some(place.guid);
    }
    Ok(items)
}
