// What the tables stand for, and the tables themselves. Both are plain data: contracts see lists and texts.
use addr_base::{Items, Text};
use addr_keys::Key;

/// An entry: numbers of an internal id, a provider, keys and a resource type.
#[derive(Debug, Drop)]
pub struct EntryRow {
    pub internal: u32,
    pub provider: u32,
    /// The number of the key whose bucket holds what this entry depends on.
    pub dep: Option<u32>,
    pub dep_hash: i32,
    pub extra: Option<Key>,
    /// The number of the primary key.
    pub primary: u32,
    pub kind: u32,
}

/// The keys, beside each the numbers of its entries, and the entries.
#[derive(Debug, Drop)]
pub struct Rows {
    pub keys: Items<Key>,
    pub buckets: Items<Items<u32>>,
    pub entries: Items<EntryRow>,
}

/// Four tables as base64 texts, and how many internal ids, providers and resource types their numbers may name.
#[derive(Debug, Drop)]
pub struct Tables {
    pub key: Text,
    pub bucket: Text,
    pub entry: Text,
    pub extra: Text,
    pub internals: u32,
    pub providers: u32,
    pub kinds: u32,
}
