// What a walk misses: places that hold nothing, and references that lead to no bundle that is needed.
ghost use Rattle.std.specs.Prelude.{◌≡◌, ◌≤◌, ◌⊎◌, ◌++◌, ◌∷◌, [], List, false, IsTrue, MatchOption};
ghost use Rattle.addr_history.specs.Unfolding.{Misses, Strays};
ghost use Rattle.addr_history.specs.declared.reading.Place.{Place};
ghost use Rattle.addr_objects.specs.Objects.{objects_in};
ghost use Rattle.addr_objects.specs.within.Search.{IsLeastAmong};

use crate::homes::Homes;
use crate::reading::lent;
use addr_base::{BundleNo, Image, RefTo};
use addr_history::Place;

/// Whether a reference leads to no bundle that is needed.
fn strays(homes: &Homes, from: u32, refs: &[RefTo]) -> bool
    ensures strays { IsTrue result → Strays homes.now.bundles homes.now.needs from refs.now }
    ensures stays { result ≡ false → Strays homes.now.bundles homes.now.needs from refs.now → ⊥ }
{
    for r in refs {
        if homes.leads_to(from, r.home).is_none() {
            return true;
        }
    }
    false
}

fn misses<I: Image + Drop>(images: &[Option<I>], homes: &Homes, place: Place) -> bool
    ensures misses { IsTrue result
        → Misses (objects_in I.object_of images.now) homes.now.bundles homes.now.needs place }
    ensures holds { result ≡ false
        → Misses (objects_in I.object_of images.now) homes.now.bundles homes.now.needs place → ⊥ }
{
    match lent(images, BundleNo(place.bundle), &place.guid) {
        Some(object) => strays(homes, place.bundle, object.refs),
        None => true,
    }
}

fn lesser(least: Option<u32>, bundle: u32) -> u32
    ensures { MatchOption least (result ≡ bundle)
        (λ b. (result ≤ b) × (result ≤ bundle) × ((result ≡ b) ⊎ (result ≡ bundle))) }
{
    match least {
        Some(b) => if b <= bundle { b } else { bundle },
        None => bundle,
    }
}

/// The least bundle that is known to miss something, after one more place.
fn least_with<I: Image + Drop>(
    images: &[Option<I>],
    homes: &Homes,
    least: Option<u32>,
    place: Place,
) -> Option<u32>
    ensures { (places : List Place)
        → IsLeastAmong (Misses (objects_in I.object_of images.now) homes.now.bundles homes.now.needs) places least
        → IsLeastAmong (Misses (objects_in I.object_of images.now) homes.now.bundles homes.now.needs)
        (places ++ place ∷ []) result }
{
    if misses(images, homes, place) {
        return Some(lesser(least, place.bundle));
    }
    least
}

/// The least bundle in which one of some places misses something.
pub fn least_missed<I: Image + Drop>(
    images: &[Option<I>],
    homes: &Homes,
    places: &[Place],
) -> Option<u32>
    ensures { IsLeastAmong (Misses (objects_in I.object_of images.now) homes.now.bundles homes.now.needs)
        places.now result }
{
    let mut least = None;
    for place in places {
        least = least_with(images, homes, least, *place);
    }
    least
}
