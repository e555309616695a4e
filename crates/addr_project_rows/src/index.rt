// An index of keys: the place of each key, found by its bytes in a map.
ghost use Rattle.std.specs.Prelude.{◌≡◌, List, ℕ};
ghost use Rattle.addr_project_rows.specs.Firsts.{is_among, place_of};
ghost use Rattle.addr_project_rows.specs.Lookups.{keys_in, HoldsPlaces};

use std::collections::BTreeMap;

/// What is told apart by a key.
pub trait Keyed {
    ghost key_of: { Self → List ℕ };

    fn key(&self) -> &[u8]
        ensures { result.now ≡ key_of self.now };
}

/// Keys of which none is repeated, each with its place.
#[derive(Drop)]
pub struct Index<'a> {
    pub keys: Vec<&'a [u8]>,
    pub places: BTreeMap<&'a [u8], u32>,
    ghost holds: { HoldsPlaces (keys_in keys.items) places },
}

/// An index, or the first row whose key repeats an earlier one.
#[derive(Drop)]
pub enum Indexed<'a> {
    Whole(Index<'a>),
    Repeat(u32),
}

impl<'a> Index<'a> {
    /// The place of a key.
    pub fn place(&self, key: &[u8]) -> Option<u32>
        ensures { result ≡ place_of (keys_in self.now.keys.items) key.now }
    {
        self.places.get(key).copied()
    }

    #[tactic(auto, using(crate::proofs::KeyLemmas::among_place))]
    pub fn has(&self, key: &[u8]) -> bool
        ensures { result ≡ is_among (keys_in self.now.keys.items) key.now }
    {
        self.place(key).is_some()
    }
}
