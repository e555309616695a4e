// Looking an object up by its GUID, and a bundle up by its name, each in a logarithm of their number.
ghost use Rattle.std.specs.Prelude.{◌≡◌, ◌<◌, None, length, find, slice_get, MatchOption};
ghost use Rattle.std.specs.Cmp.Lexicographic.{slice_cmp};
ghost use Rattle.std.specs.List.{list_any, position_or_len};
ghost use Rattle.std.specs.Option.{is_some};
ghost use Rattle.std.specs.Ordering.{nat_cmp};
ghost use Rattle.std.specs.Str.{bytes_eq};
ghost use Rattle.addr_cab.specs.Searches.{Finds, FindsPlace};
ghost use Rattle.addr_cab.specs.Faults.{has_guid};

use crate::ascending::Ascending;
use crate::names::Names;
use crate::object::ObjectRow;
use addr_base::{Digest, Guid};
use std::cmp::Ordering;

fn order(row: &ObjectRow, guid: &Guid) -> Ordering
    ensures { result ≡ slice_cmp nat_cmp row.now.guid.0 guid.now.0 }
{
    row.guid.0.cmp(&guid.0)
}

impl<'a> Ascending<'a> {
    fn search(self, guid: Guid) -> Result<usize, usize>
        ensures { Finds (has_guid guid.0) self.entry.rows.now result }
    {
        self.rows.binary_search_by(|row| order(row, &guid))
    }

    /// The place of the object with a GUID.
    pub fn place_of(self, guid: Guid) -> Option<usize>
        ensures place { MatchOption result (find (has_guid guid.0) self.entry.rows.now ≡ None)
            (λ i. (i < length self.entry.rows.now)
            × (find (has_guid guid.0) self.entry.rows.now ≡ slice_get self.entry.rows.now i)) }
        ensures held { list_any (has_guid guid.0) self.entry.rows.now ≡ is_some result }
    {
        match self.search(guid) {
            Ok(place) => Some(place),
            Err(_) => None,
        }
    }
}

fn name_order(entry: &Digest, name: &Digest) -> Ordering
    ensures { result ≡ slice_cmp nat_cmp entry.now.0 name.now.0 }
{
    entry.0.cmp(&name.0)
}

impl<'a> Names<'a> {
    fn search(self, name: Digest) -> Result<usize, usize>
        ensures { FindsPlace (λ d. bytes_eq d.0 name.0) self.entry.names.now result }
    {
        self.names
            .binary_search_by(|entry| name_order(entry, &name))
    }

    /// The place of a name, or the number of names where it is none of them.
    pub fn place_of(self, name: Digest) -> usize
        ensures { result ≡ position_or_len (λ d. bytes_eq d.0 name.0) self.entry.names.now }
    {
        match self.search(name) {
            Ok(place) => place,
            Err(_) => self.names.len(),
        }
    }
}
