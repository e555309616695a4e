// Texts under their numbers, and the number of each text by a hash. A look-up takes no memory. The hash has a fixed seed, since a
// seed that nobody knows has to be given from outside; it only says where a text is looked for, and texts are compared whole.
ghost use Rattle.std.specs.Prelude.{◌≡◌, ◌++◌, ◌∷◌, [], None, length, position, IfOk, OnOk};
ghost use Rattle.std.specs.Str.{bytes_eq};
ghost use Rattle.indexmap.specs.IndexMap.{get_by_text};
ghost use Rattle.addr_locate.specs.Names.{with_text};
ghost use Rattle.addr_locate.specs.Rows.{place_of};

use addr_base::{Items, NoMemory, Text};
use indexmap::IndexMap;
use std::alloc::Global;
use std::marker::Model;

/// Texts in the order of their numbers, and the first place of each.
#[derive(Debug, Drop)]
pub(crate) struct Names {
    texts: Items<Text>,
    places: IndexMap<String, u32>,
}

impl Model for Names {
    ghost use Rattle.std.specs.Prelude.{List, ℕ};
    ghost use Rattle.indexmap.specs.IndexMap.{get_by_text};
    ghost use Rattle.addr_locate.specs.Names.{FindsPlaces};

    ghost Value = { List (List ℕ) };

    ghost view = { λ n. n.texts };

    ghost invariant = { λ n. FindsPlaces n.texts (get_by_text n.places) };
}

impl Names {
    pub(crate) fn new(alloc: Global) -> Names
        ensures { result ≡ [] }
    {
        Names {
            texts: Items::new(alloc),
            places: IndexMap::new(alloc),
        }
    }

    pub(crate) fn texts(&self) -> &[Text]
        ensures { result.now ≡ self.now }
    {
        self.texts.as_slice()
    }

    /// The place of the text, if it is there.
    pub(crate) fn place(&self, text: &str) -> Option<u32>
        ensures { result ≡ position (λ t. bytes_eq t text.now) self.now }
    {
        place_in(&self.places, text)
    }

    /// The place of the text, which gets the next one where it isn't there. Takes memory for a copy of a new text alone. More texts
    /// than numbers are want of memory, too.
    pub(crate) fn number(&mut self, alloc: Global, text: Text) -> Result<u32, NoMemory>
        ensures texts { OnOk result (self.new ≡ with_text self.old text) }
        ensures place { IfOk result (λ n. n ≡ place_of self.new text) }
    {
        if let Some(place) = self.place(text.as_str()) {
            return Ok(place);
        }
        let Ok(place) = u32::try_from(self.texts.len()) else {
            return Err(NoMemory);
        };
        self.add(alloc, text, place)?;
        Ok(place)
    }

    /// Puts a new text behind the others. Room in the map is made first, so that nothing is refused between the two.
    fn add(&mut self, alloc: Global, text: Text, place: u32) -> Result<(), NoMemory>
        requires last { place ≡ length self.old }
        requires new { position (λ t. bytes_eq t text) self.old ≡ None }
        ensures { OnOk result (self.new ≡ self.old ++ text ∷ []) }
    {
        let copy = String::from_str(alloc, text.as_str())?;
        self.places.reserve(1)?;
        self.texts.push(text)?;
        self.places.insert(copy, place)?;
        Ok(())
    }
}

fn place_in(places: &IndexMap<String, u32>, text: &str) -> Option<u32>
    ensures { result ≡ get_by_text places.now text.now }
{
    places.get(text).copied()
}
