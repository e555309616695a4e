// Where the references of each place lead: to the places with these numbers, or nowhere.
ghost use Rattle.std.specs.Prelude.{◌≡◌, ◌<◌, ◌^◌, length, IfOk, MatchOption};
ghost use Rattle.std.specs.List.{AllZip};
ghost use Rattle.std.specs.List.Sorted.{IsStrictlySortedBy};
ghost use Rattle.addr_base.specs.Images.{Object};
ghost use Rattle.addr_resolve.specs.Items.{AreHeld, Lends};
ghost use Rattle.addr_resolve.specs.within.Leading.{AreLinks, AreLinksOf, IsUnresolved, IsLostOf, IsRowOf, LeadsAt, first_of};
ghost use Rattle.addr_resolve.specs.Order.{place_cmp};

use crate::graph::PlaceRow;
use crate::losing::lesser;
use crate::names::bundle_of;
use crate::placing::number_of;
use addr_base::{Guid, Image, Items, NoMemory, RefTo};
use addr_cab::Cab;
use std::alloc::Global;
use std::collections::BTreeMap;

/// Where the references of one object lead, and the least GUID of those that lead nowhere.
#[derive(Drop)]
struct Links {
    row: Items<u32>,
    lost: Option<Guid>,
}

/// The same for the objects at all places.
#[derive(Drop)]
pub(crate) struct Table {
    pub rows: Items<Items<u32>>,
    pub lost: Items<Option<Guid>>,
}

/// The number of the place to which a reference leads.
fn target_of(
    firsts: &BTreeMap<&[u8], u32>,
    places: &[PlaceRow],
    bundle: u32,
    r: &RefTo,
) -> Option<u32>
    requires few { length places.now < 2 ^ 32 }
    requires rising { IsStrictlySortedBy place_cmp places.now }
    ensures { MatchOption result (IsUnresolved (first_of firsts.now) places.now bundle r.now)
        (LeadsAt (first_of firsts.now) places.now bundle r.now) }
{
    match bundle_of(firsts, bundle, r.home) {
        None => None,
        Some(to) => number_of(
            places,
            &PlaceRow {
                guid: r.guid,
                bundle: to,
            },
        ),
    }
}

/// Where some references of an object of a bundle lead.
fn links_of(
    alloc: Global,
    firsts: &BTreeMap<&[u8], u32>,
    places: &[PlaceRow],
    bundle: u32,
    refs: &[RefTo],
) -> Result<Links, NoMemory>
    requires few { length places.now < 2 ^ 32 }
    requires rising { IsStrictlySortedBy place_cmp places.now }
    ensures { IfOk result (λ l. AreLinks (first_of firsts.now) places.now bundle refs.now l.row l.lost) }
{
    let mut row = Items::new(alloc);
    let mut lost = None;
    for r in refs {
        match target_of(firsts, places, bundle, r) {
            Some(n) => row.push(n)?,
            None => lost = lesser(lost, Some(r.guid)),
        }
    }
    Ok(Links { row, lost })
}

/// Where the references of the object at a place lead.
fn links_at(
    alloc: Global,
    firsts: &BTreeMap<&[u8], u32>,
    cabs: &[Cab],
    places: &[PlaceRow],
    place: PlaceRow,
) -> Result<Links, NoMemory>
    requires few { length places.now < 2 ^ 32 }
    requires rising { IsStrictlySortedBy place_cmp places.now }
    requires lent { (x : Object) × Lends cabs.now place x }
    ensures { IfOk result (λ l. AreLinksOf (first_of firsts.now) cabs.now places.now place l.row l.lost) }
{
    let cab = &cabs[place.bundle as usize];
    match cab.object(&place.guid) {
        Some(found) => {
            let links = links_of(alloc, firsts, places, place.bundle, found.refs)?;
            Ok(links)
        }
        None => unreachable!(),
    }
}

/// Where the references of the objects at all places lead, place by place.
pub(crate) fn table_of(
    alloc: Global,
    firsts: &BTreeMap<&[u8], u32>,
    cabs: &[Cab],
    places: &[PlaceRow],
) -> Result<Table, NoMemory>
    requires few { length places.now < 2 ^ 32 }
    requires rising { IsStrictlySortedBy place_cmp places.now }
    requires held { AreHeld cabs.now places.now }
    ensures rows { IfOk result (λ t. AllZip (IsRowOf (first_of firsts.now) cabs.now places.now) places.now t.rows) }
    ensures lost { IfOk result (λ t. AllZip (IsLostOf (first_of firsts.now) cabs.now places.now) places.now t.lost) }
{
    let mut rows = Items::new(alloc);
    let mut lost = Items::new(alloc);
    for place in places {
        let links = links_at(alloc, firsts, cabs, places, *place)?;
        rows.push(links.row)?;
        lost.push(links.lost)?;
    }
    Ok(Table { rows, lost })
}
