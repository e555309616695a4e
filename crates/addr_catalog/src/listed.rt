// Lists of numbers, each kept once and found by its place: the texts of keys, as their bytes, and lists of dependencies. An
// ordered map finds them, so that none is compared with each earlier one.
ghost use Rattle.std.specs.Prelude.{◌≡◌, ◌<◌, ◌^◌, map, length, IfOk};
ghost use Rattle.std.specs.Ordering.{nat_cmp};
ghost use Rattle.std.specs.Cmp.Lexicographic.{slice_cmp};
ghost use Rattle.addr_catalog.specs.Listed.{HasPlaces};
ghost use Rattle.addr_locate.specs.Rows.{texts_once, place_of};

use addr_base::NoMemory;
use std::alloc::Global;
use std::collections::BTreeMap;

/// A key that is seen as a list of numbers, in whose order it stands.
pub trait Listed: Ord {
    ghost use Rattle.std.specs.Prelude.{ℕ, List};

    ghost list: { Self → List ℕ };

    ghost compares: { (a b : Self) → Self.Ord.cmp a b ≡ slice_cmp nat_cmp (list a) (list b) };
}

impl Listed for &str {
    ghost use Rattle.std.specs.Prelude.{refl};

    ghost list = { λ text. text.now };

    ghost compares = { λ a b. refl };
}

impl Listed for &[u32] {
    ghost use Rattle.std.specs.Prelude.{refl};

    ghost list = { λ numbers. numbers.now };

    ghost compares = { λ a b. refl };
}

/// Keys of which none is repeated, and the place of each.
#[derive(Drop)]
pub struct Numbered<K: Listed + Drop> {
    pub once: Vec<K>,
    places: BTreeMap<K, u32>,
    ghost few: { length once.items < 2 ^ 32 },
    ghost holds: { HasPlaces K.Ord.cmp K.list once.items places },
}

impl<K: Listed + Copy + Drop> Numbered<K> {
    /// Each list once, where it stands first.
    pub fn of(alloc: Global, keys: &[K]) -> Result<Numbered<K>, NoMemory>
        requires { length (texts_once (map K.list keys.now)) < 2 ^ 32 }
        ensures { IfOk result (λ numbered. map K.list numbered.once.items ≡ texts_once (map K.list keys.now)) }
    {
        let mut once = Vec::new(alloc);
        let mut places = BTreeMap::new(alloc);
        for key in keys {
            if places.get(key).is_none() {
                places.insert(*key, once.len() as u32)?;
                once.push(*key)?;
            }
        }
        Ok(Numbered { once, places })
    }

    /// The place of a list, or the number of lists where it isn't there.
    pub fn place(&self, key: &K) -> u32
        ensures { result ≡ place_of (map K.list self.now.once.items) (K.list key.now) }
    {
        match self.places.get(key) {
            Some(place) => *place,
            None => self.once.len() as u32,
        }
    }
}
