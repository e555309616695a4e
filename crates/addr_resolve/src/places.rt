// The places of all objects that bundles hold, by number.
ghost use Rattle.std.specs.Prelude.{◌≡◌, ◌++◌, ◌<◌, ◌^◌, length, IfOk, List, OnOk};
ghost use Rattle.std.specs.List.Sorted.{IsStrictlySortedBy};
ghost use Rattle.addr_release.specs.Opened.{Opened};
ghost use Rattle.addr_resolve.specs.Graph.{AreInOrder, ShowsPlaces};
ghost use Rattle.addr_resolve.specs.Items.{AreHeld, HoldOne, ShowsCabs};
ghost use Rattle.addr_resolve.specs.Order.{place_cmp};
ghost use Rattle.addr_resolve.specs.Places.{ArePlaces, row_places};

use crate::graph::PlaceRow;
use crate::placing::in_order;
use addr_base::{Items, NoMemory};
use addr_cab::{Cab, ObjectRow};
use std::alloc::Global;

/// Adds the places of a bundle's objects.
fn add_places(places: &mut Items<PlaceRow>, rows: &[ObjectRow], bundle: u32) -> Result<(), NoMemory>
    ensures { OnOk result (places.new ≡ places.old ++ row_places bundle rows.now) }
{
    for row in rows {
        places.push(PlaceRow {
            guid: row.guid,
            bundle,
        })?;
    }
    Ok(())
}

fn gathered(alloc: Global, cabs: &[Cab]) -> Result<Items<PlaceRow>, NoMemory>
    requires few { length cabs.now < 2 ^ 32 }
    ensures { IfOk result (ArePlaces cabs.now) }
{
    let mut places = Items::new(alloc);
    for (b, cab) in cabs.iter().enumerate() {
        add_places(&mut places, cab.objects(), b as u32)?;
    }
    Ok(places)
}

/// What the objects of all bundles say. A step for each bundle, and nothing is looked at.
fn hold_one(cabs: &[Cab])
    ensures { (files : List Opened) → ShowsCabs files cabs.now → HoldOne files }
{
    for cab in cabs {
        let _rows = cab.objects();
    }
}

/// The places of all objects by GUID, and for each GUID by bundle. A sort, and memory for the places.
pub fn places_of(alloc: Global, cabs: &[Cab]) -> Result<Items<PlaceRow>, NoMemory>
    requires few { length cabs.now < 2 ^ 32 }
    ensures rising { IfOk result (IsStrictlySortedBy place_cmp) }
    ensures places { IfOk result (ArePlaces cabs.now) }
    ensures held { IfOk result (AreHeld cabs.now) }
    // So they stand in their order, and are the places at which the opened files hold something.
    ensures ordered { IfOk result AreInOrder }
    ensures shown { IfOk result (λ places. (files : List Opened) → ShowsCabs files cabs.now → ShowsPlaces files places) }
    ensures one { (files : List Opened) → ShowsCabs files cabs.now → HoldOne files }
{
    hold_one(cabs);
    let places = gathered(alloc, cabs)?;
    Ok(Items::from_vec(in_order(places.into_vec())))
}
