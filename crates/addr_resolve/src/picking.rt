// The places of a walk, one for each GUID: that in the least bundle, which is the first of its GUID.
ghost use Rattle.std.specs.Prelude.{◌≡◌, ◌<◌, ◌↔◌, ◌⊎◌, length, All, IfOk, IsTrue, List, ℕ, Some, None};
ghost use Rattle.std.specs.List.{slice_get};
ghost use Rattle.std.specs.List.Sorted.{IsStrictlySortedBy};
ghost use Rattle.std.specs.Ordering.{nat_cmp};
ghost use Rattle.addr_walks.specs.Walks.{IsListOf};
ghost use Rattle.addr_resolve.specs.Graph.{AreInOrder, IsFirst};
ghost use Rattle.addr_resolve.specs.declared.graph.PlaceRow.{PlaceRow};

use crate::graph::PlaceRow;
use addr_base::{Guid, Items, NoMemory};
use std::alloc::Global;

fn is_guid(a: Guid, b: Guid) -> bool
    ensures { IsTrue result ↔ (a ≡ b) }
{
    addr_base::is_same(&a.0, &b.0)
}

/// Of each GUID the first number that stands at it.
pub fn picks_of(alloc: Global, places: &[PlaceRow], found: &[u32]) -> Result<Items<u32>, NoMemory>
    requires within { All (λ n. n < length places.now) found.now }
    requires rising { IsStrictlySortedBy nat_cmp found.now }
    requires ordered { AreInOrder places.now }
    ensures { IfOk result (IsListOf nat_cmp (IsFirst places.now found.now)) }
{
    let mut picks = Items::new(alloc);
    let mut last = None;
    for n in found {
        let guid = places[*n as usize].guid;
        if !is_last(last, guid) {
            picks.push(*n)?;
        }
        last = Some(guid);
    }
    Ok(picks)
}

fn is_last(last: Option<Guid>, guid: Guid) -> bool
    ensures { IsTrue result ↔ (last ≡ Some guid) }
{
    match last {
        None => false,
        Some(before) => is_guid(before, guid),
    }
}
