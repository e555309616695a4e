// For each key the rows that have it, in the order of the rows.
ghost use Rattle.std.specs.Prelude.{◌≡◌, ◌<◌, ◌^◌, ◌++◌, ◌∷◌, [], true, map, length, replicate, Some, IfOk, OnOk};
ghost use Rattle.std.specs.List.{list_all};
ghost use Rattle.addr_locate.specs.Changes.{change, change_each};
ghost use Rattle.addr_locate.specs.Postings.{no_key_twice, ArePostings, listed};

use crate::rows::AssetRow;
use addr_base::{Items, KeyNo, NoMemory, RowNo};
use std::alloc::Global;

fn empty_postings(alloc: Global, count: usize) -> Result<Vec<Items<RowNo>>, NoMemory>
    ensures { IfOk result (λ postings. postings.items ≡ replicate count []) }
{
    let mut postings = Vec::with_capacity(alloc, count)?;
    for made in 0..count {
        postings.push(Items::new(alloc))?;
    }
    Ok(postings)
}

fn post(postings: &mut [Items<RowNo>], key: KeyNo, row: RowNo) -> Result<(), NoMemory>
    ensures { OnOk result (postings.new ≡ change (λ rows. rows ++ row ∷ []) key.0 postings.old) }
{
    let place = key.0 as usize;
    if place < postings.len() {
        postings[place].push(row)?;
    }
    Ok(())
}

fn post_row(postings: &mut [Items<RowNo>], keys: &[KeyNo], row: RowNo) -> Result<(), NoMemory>
    ensures { OnOk result
        (postings.new ≡ change_each (λ rows. rows ++ row ∷ []) (map (λ k. k.0) keys.now) postings.old) }
{
    for key in keys {
        post(postings, *key, row)?;
    }
    Ok(())
}

/// The rows of each key below a number.
pub(crate) fn postings_of(
    alloc: Global,
    rows: &[AssetRow],
    count: usize,
) -> Result<Vec<Items<RowNo>>, NoMemory>
    requires few { length rows.now < 2 ^ 32 }
    requires once { list_all (λ row. no_key_twice row.keys) rows.now ≡ true }
    ensures { IfOk result (λ postings. ArePostings rows.now count postings.items) }
{
    let mut postings = empty_postings(alloc, count)?;
    for (i, row) in rows.iter().enumerate() {
        post_row(
            postings.as_mut_slice(),
            row.keys.as_slice(),
            RowNo(i as u32),
        )?;
    }
    Ok(postings)
}

/// The rows that are listed for the key.
pub(crate) fn rows_of_key(postings: &[Items<RowNo>], key: Option<KeyNo>) -> &[RowNo]
    ensures { result.now ≡ listed postings.now key }
{
    match key {
        None => &[],
        Some(known) => rows_at(postings, known),
    }
}

fn rows_at(postings: &[Items<RowNo>], key: KeyNo) -> &[RowNo]
    ensures { result.now ≡ listed postings.now (Some key) }
{
    match postings.get(key.0 as usize) {
        None => &[],
        Some(rows) => rows.as_slice(),
    }
}
