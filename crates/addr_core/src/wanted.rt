// What each operation wants: the rows that it found and the bundles that they need, by its number.
ghost use Rattle.std.specs.Prelude.{◌≡◌, slice_get, slice_set};
ghost use Rattle.addr_core.specs.within.Wanting.{nothing, wanted_at};

use addr_base::{BundleNo, Items, OpId, RowNo};
use std::alloc::Global;
use std::mem;

/// The rows that an operation found, and the bundles that they need.
#[derive(Drop)]
pub struct Wanted {
    pub rows: Items<RowNo>,
    pub needs: Items<BundleNo>,
}

impl Wanted {
    /// Nothing, and no memory taken.
    fn nothing(alloc: Global) -> Wanted
        ensures { result ≡ nothing }
    {
        Wanted {
            rows: Items::new(alloc),
            needs: Items::new(alloc),
        }
    }
}

/// What an operation wants, which is no longer kept for it; nothing where it wasn't opened.
pub fn take_wanted(alloc: Global, wanted: &mut [Wanted], op: OpId) -> Wanted
    ensures taken { result ≡ wanted_at wanted.old op }
    ensures left { wanted.new ≡ slice_set wanted.old op.0 nothing }
{
    let place = op.0 as usize;
    let none = Wanted::nothing(alloc);
    if place < wanted.len() {
        mem::replace(&mut wanted[place], none)
    } else {
        none
    }
}

/// An operation's i-th row; none where it wasn't opened.
pub fn row_of(wanted: &[Wanted], op: OpId, i: u32) -> Option<RowNo>
    ensures { result ≡ slice_get (wanted_at wanted.now op).rows i }
{
    match wanted.get(op.0 as usize) {
        Some(found) => found.rows.as_slice().get(i as usize).copied(),
        None => None,
    }
}

/// The bundles that an operation needs; none where it wasn't opened.
pub fn needs_at(wanted: &[Wanted], op: OpId) -> &[BundleNo]
    ensures { result.now ≡ (wanted_at wanted.now op).needs }
{
    match wanted.get(op.0 as usize) {
        Some(found) => found.needs.as_slice(),
        None => &[],
    }
}
