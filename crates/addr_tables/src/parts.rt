// The tables as they stand, before any number in them is looked up. A number that isn't below 2^31 is a negative one.
use addr_base::Items;

/// Stands for -1, where a field names nothing.
pub const NOTHING: u32 = u32::MAX;

/// The first number that is read as negative.
pub const FIRST_NEGATIVE: u32 = 1 << 31;

/// The offset of a bucket's key, and the numbers of its entries.
#[derive(Drop)]
pub struct Bucket {
    pub offset: u32,
    pub numbers: Items<u32>,
}

/// The seven numbers of an entry.
#[derive(Clone, Copy)]
pub struct Fields {
    pub internal: u32,
    pub provider: u32,
    pub dep: u32,
    pub dep_hash: u32,
    pub extra: u32,
    pub primary: u32,
    pub kind: u32,
}

/// The bytes of the keys and of the extra data, and the buckets and entries.
#[derive(Drop)]
pub struct Parts {
    pub keys: Items<u8>,
    pub buckets: Items<Bucket>,
    pub entries: Items<Fields>,
    pub extras: Items<u8>,
}
