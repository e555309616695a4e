// Keys of rows: names of groups and variables, and GUIDs. One pass over a map finds the first key that repeats an earlier
// one, and else leaves the place of each key, so that no search is quadratic.
ghost use Rattle.std.specs.Prelude.{◌≡◌, List, ℕ, map, IfOk};
ghost use Rattle.addr_project_rows.specs.Firsts.{first_repeat};
ghost use Rattle.addr_project_rows.specs.Lookups.{keys_in};
ghost use Rattle.addr_project_rows.specs.Places.{Indexes};

use crate::index::{Index, Indexed, Keyed};
use crate::reader::row_number;
use addr_base::{NoMemory, Var};
use std::alloc::Global;
use std::collections::BTreeMap;

/// Indexes the keys of some rows.
pub fn index_rows<'a, T: Keyed>(alloc: Global, rows: &'a [T]) -> Result<Indexed<'a>, NoMemory>
    ensures { IfOk result (Indexes (map T.key_of rows.now)) }
{
    let keys = keys_of(alloc, rows)?;
    let indexed = index_list(alloc, keys)?;
    Ok(indexed)
}

/// The first row whose key repeats an earlier one.
pub fn first_repeat<T: Keyed>(alloc: Global, rows: &[T]) -> Result<Option<u32>, NoMemory>
    ensures { IfOk result (λ row. row ≡ first_repeat (map T.key_of rows.now)) }
{
    match index_rows(alloc, rows)? {
        Indexed::Whole(_) => Ok(None),
        Indexed::Repeat(row) => Ok(Some(row)),
    }
}

fn keys_of<'a, T: Keyed>(alloc: Global, rows: &'a [T]) -> Result<Vec<&'a [u8]>, NoMemory>
    ensures { IfOk result (λ keys. keys_in keys.items ≡ map T.key_of rows.now) }
{
    let mut keys = Vec::new(alloc);
    for row in rows.iter() {
        keys.push(row.key())?;
    }
    Ok(keys)
}

fn index_list<'a>(alloc: Global, keys: Vec<&'a [u8]>) -> Result<Indexed<'a>, NoMemory>
    ensures { IfOk result (Indexes (keys_in keys.entry.items)) }
{
    let mut places = BTreeMap::new(alloc);
    for (i, key) in keys.iter().enumerate() {
        let row = row_number(i)?;
        if places.insert(*key, row)?.is_some() {
            return Ok(Indexed::Repeat(row));
        }
    }
    Ok(Indexed::Whole(Index { keys, places }))
}

impl Keyed for Var {
    ghost key_of = { λ v. v.name };

    fn key(&self) -> &[u8] {
        self.name.as_bytes()
    }
}
