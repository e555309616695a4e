// The places to which a walk leads through the images. What was found stands in a list that the search goes along, and in an
// ordered set, so that no place is looked for by walking a list.
ghost use Rattle.std.specs.Prelude.{◌≡◌, ◌↔◌, ◌∷◌, [], IfOk, OnOk};
ghost use Rattle.std.specs.List.{Contains};
ghost use Rattle.std.specs.List.Sorted.{IsStrictlySortedBy};
ghost use Rattle.addr_history.specs.Unfolding.{Jumps, RefersTo};
ghost use Rattle.addr_history.specs.declared.reading.Place.{Place};
ghost use Rattle.addr_objects.specs.Objects.{objects_in};
ghost use Rattle.addr_objects.specs.within.Search.{Grows, Tracks, place_cmp};
ghost use Rattle.addr_walks.specs.Walks.{IsListOf, Leads};

use crate::homes::Homes;
use crate::reading::lent;
use addr_base::{BundleNo, Image, NoMemory, RefTo};
use addr_history::Place;
use std::alloc::Global;
use std::collections::BTreeSet;

/// Adds a place, where it wasn't found yet.
fn add(seen: &mut BTreeSet<Place>, found: &mut Vec<Place>, place: Place) -> Result<(), NoMemory>
    requires { Tracks seen.old found.old.items }
    ensures tracks { OnOk result (Tracks seen.new found.new.items) }
    ensures grows { OnOk result (Grows (λ q. place ≡ q) found.old.items found.new.items) }
{
    if seen.insert(place)? {
        found.push(place)?;
    }
    Ok(())
}

/// Adds the place to which a reference leads from a bundle.
fn add_ref(
    homes: &Homes,
    seen: &mut BTreeSet<Place>,
    found: &mut Vec<Place>,
    from: u32,
    r: RefTo,
) -> Result<(), NoMemory>
    requires { Tracks seen.old found.old.items }
    ensures tracks { OnOk result (Tracks seen.new found.new.items) }
    ensures grows { OnOk result
        (Grows (RefersTo homes.now.bundles homes.now.needs from (r ∷ [])) found.old.items found.new.items) }
{
    match homes.leads_to(from, r.home) {
        Some(bundle) => {
            add(
                seen,
                found,
                Place {
                    guid: r.guid,
                    bundle,
                },
            )?;
            Ok(())
        }
        None => Ok(()),
    }
}

fn add_refs(
    homes: &Homes,
    seen: &mut BTreeSet<Place>,
    found: &mut Vec<Place>,
    from: u32,
    refs: &[RefTo],
) -> Result<(), NoMemory>
    requires { Tracks seen.old found.old.items }
    ensures tracks { OnOk result (Tracks seen.new found.new.items) }
    ensures grows { OnOk result
        (Grows (RefersTo homes.now.bundles homes.now.needs from refs.now) found.old.items found.new.items) }
{
    for r in refs {
        add_ref(homes, seen, found, from, *r)?;
    }
    Ok(())
}

/// Adds the places to which the object at a place refers.
fn add_steps<I: Image + Drop>(
    images: &[Option<I>],
    homes: &Homes,
    seen: &mut BTreeSet<Place>,
    found: &mut Vec<Place>,
    place: Place,
) -> Result<(), NoMemory>
    requires { Tracks seen.old found.old.items }
    ensures tracks { OnOk result (Tracks seen.new found.new.items) }
    ensures grows { OnOk result (Grows
        (Jumps (objects_in I.object_of images.now) homes.now.bundles homes.now.needs place)
        found.old.items found.new.items) }
{
    match lent(images, BundleNo(place.bundle), &place.guid) {
        Some(object) => {
            add_refs(homes, seen, found, place.bundle, object.refs)?;
            Ok(())
        }
        None => Ok(()),
    }
}

/// The places in their order, each once.
fn in_order(places: Vec<Place>) -> Vec<Place>
    ensures rising { IsStrictlySortedBy place_cmp result.items }
    ensures same { (q : Place) → Contains result.items q ↔ Contains places.items q }
{
    let mut sorted = places;
    sorted.sort_unstable();
    sorted.dedup();
    sorted
}

/// The places of the walk from a place, in their order. A look-up for each place and for each reference, and a sort.
pub fn reached<I: Image + Drop>(
    alloc: Global,
    images: &[Option<I>],
    homes: &Homes,
    start: Place,
) -> Result<Vec<Place>, NoMemory>
    ensures { IfOk result (λ places. IsListOf place_cmp (Leads
        (Jumps (objects_in I.object_of images.now) homes.now.bundles homes.now.needs) start) places.items) }
{
    let mut seen = BTreeSet::new(alloc);
    let mut found = Vec::new(alloc);
    add(&mut seen, &mut found, start)?;
    for n in 0..u64::MAX {
        if n as usize >= found.len() {
            return Ok(in_order(found));
        }
        let place = found[n as usize];
        add_steps(images, homes, &mut seen, &mut found, place)?;
    }
    Err(NoMemory)
}
