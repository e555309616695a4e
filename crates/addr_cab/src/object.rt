// An object as callers give it, and as a table places it in its data.
use addr_base::{Guid, Items, RefTo};

/// An object to be written: its bytes, and its references in the order in which they are written.
#[derive(Drop)]
pub struct ObjectOut {
    pub guid: Guid,
    pub bytes: Items<u8>,
    pub refs: Items<RefTo>,
}

/// The lengths of an object to be written: its bytes, and how many references it has.
#[derive(Clone, Copy)]
pub struct ObjectSize {
    pub bytes: u64,
    pub refs: u64,
}

/// An object of a table: where its bytes lie, counted from the start of the data.
#[derive(Drop)]
pub struct ObjectRow {
    pub guid: Guid,
    pub offset: u64,
    pub size: u64,
    pub refs: Items<RefTo>,
}
