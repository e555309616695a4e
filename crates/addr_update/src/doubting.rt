// Which places lead to a bad one: one search over rows turned round, linear in places and references, for all entries at once.
ghost use Rattle.std.specs.Prelude.{◌≡◌, ◌<◌, ◌^◌, length, vec_len, IfOk, OnOk};
ghost use Rattle.std.specs.List.{All};
ghost use Rattle.std.specs.Ordering.{nat_cmp};
ghost use Rattle.addr_walks.specs.Rows.{AreBelow};
ghost use Rattle.addr_walks.specs.Walks.{IsListOf};
ghost use Rattle.addr_update.specs.Doubtful.{IsDoubtful};
ghost use Rattle.addr_update.specs.within.Turned.{Adds, IsTurned};

use addr_base::{Items, NoMemory};
use addr_walks::Search;
use std::alloc::Global;

/// The numbers of all places from which a bad one is reached, ascending.
pub fn doubtful(alloc: Global, rows: &[Items<u32>], bad: &[u32]) -> Result<Items<u32>, NoMemory>
    requires few { length rows.now < 2 ^ 32 }
    requires below { AreBelow rows.now (length rows.now) }
    requires bad { All (λ n. n < length rows.now) bad.now }
    ensures { IfOk result (IsListOf nat_cmp (IsDoubtful rows.now bad.now)) }
{
    let back = reversed(alloc, rows)?;
    let mut search = Search::new(alloc, rows.len())?;
    let found = search.reached(alloc, back.as_slice(), bad)?;
    Ok(found)
}

/// Rows the other way round.
fn reversed(alloc: Global, rows: &[Items<u32>]) -> Result<Items<Items<u32>>, NoMemory>
    requires few { length rows.now < 2 ^ 32 }
    requires below { AreBelow rows.now (length rows.now) }
    ensures many { IfOk result (λ back. length back ≡ length rows.now) }
    ensures turned { IfOk result (IsTurned rows.now) }
{
    let mut back: Vec<Items<u32>> = Vec::new(alloc);
    for _ in 0..rows.len() {
        back.push(Items::new(alloc))?;
    }
    for b in 0..rows.len() {
        add_row(&mut back, rows[b].as_slice(), b as u32)?;
    }
    Ok(Items::from_vec(back))
}

/// Each number of a row leads to b as well.
fn add_row(back: &mut Vec<Items<u32>>, row: &[u32], b: u32) -> Result<(), NoMemory>
    requires below { All (λ c. c < vec_len back.old) row.now }
    ensures len { OnOk result (vec_len back.new ≡ vec_len back.old) }
    ensures added { OnOk result (Adds back.old.items row.now b back.new.items) }
{
    for c in row {
        back[*c as usize].push(b)?;
    }
    Ok(())
}
