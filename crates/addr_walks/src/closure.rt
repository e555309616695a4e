// Dependency lists of rows of numbers: for each row one search from it.
ghost use Rattle.std.specs.Prelude.{◌≡◌, ◌↔◌, ◌∷◌, ◌<◌, ◌^◌, nat_lt, length, IfOk, IsTrue};
ghost use Rattle.std.specs.List.{filter, list_all};
ghost use Rattle.addr_walks.specs.Closure.{IsDeps, AreDeps, is_other};
ghost use Rattle.addr_walks.specs.Rows.{AreBelow, Edge};

use crate::searching::Search;
use addr_base::{Items, NoMemory};
use std::alloc::Global;

/// Whether each number in the rows is a row's.
pub fn are_below(rows: &[Items<u32>]) -> bool
    ensures { IsTrue result ↔ AreBelow rows.now (length rows.now) }
{
    are_all_below(rows, rows.len())
}

fn are_all_below(rows: &[Items<u32>], n: usize) -> bool
    ensures { result ≡ list_all (λ row. list_all (λ c. nat_lt c n) row) rows.now }
{
    rows.iter().all(|row| is_row_below(row.as_slice(), n))
}

fn is_row_below(row: &[u32], n: usize) -> bool
    ensures { result ≡ list_all (λ c. nat_lt c n) row.now }
{
    row.iter().all(|c| (*c as usize) < n)
}

/// For each row its own number first and then, ascending, every other number to which a walk leads.
pub fn closed(alloc: Global, direct: &[Items<u32>]) -> Result<Items<Items<u32>>, NoMemory>
    requires few { length direct.now < 2 ^ 32 }
    requires below { AreBelow direct.now (length direct.now) }
    ensures { IfOk result (AreDeps direct.now) }
{
    let mut search = Search::new(alloc, direct.len())?;
    let mut all = Items::new(alloc);
    for b in 0..direct.len() {
        let deps = deps_of(alloc, &mut search, direct, b as u32)?;
        all.push(deps)?;
    }
    Ok(all)
}

fn deps_of(
    alloc: Global,
    search: &mut Search,
    direct: &[Items<u32>],
    b: u32,
) -> Result<Items<u32>, NoMemory>
    requires size { search.old ≡ length direct.now }
    requires below { AreBelow direct.now (length direct.now) }
    requires within { b < length direct.now }
    ensures size { search.new ≡ search.old }
    ensures deps { IfOk result (IsDeps (Edge direct.now) b) }
{
    let found = search.reached(alloc, direct, &[b])?;
    let deps = first_and_others(alloc, b, found.as_slice())?;
    Ok(deps)
}

fn first_and_others(alloc: Global, first: u32, found: &[u32]) -> Result<Items<u32>, NoMemory>
    ensures { IfOk result (λ deps. deps ≡ first ∷ filter (is_other first) found.now) }
{
    let mut deps = Items::new(alloc);
    deps.push(first)?;
    for c in found.iter() {
        if is_other(first, *c) {
            deps.push(*c)?;
        }
    }
    Ok(deps)
}

fn is_other(first: u32, c: u32) -> bool
    ensures { result ≡ is_other first c }
{
    c != first
}
