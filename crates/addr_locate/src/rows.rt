// The rows of a catalogue as plain data, with their texts numbered; and an asset row as it is written, with its texts.
use addr_base::{BundleNo, Digest, Items, KeyNo, Text, TypeNo};

/// A bundle: the key and the internal id that its file has, and its size in bytes and digest.
#[derive(Debug, Drop)]
pub struct BundleRow {
    pub key: Text,
    pub size: u64,
    pub digest: Digest,
    /// The internal name, as 32 hex digits in a built catalogue.
    pub name: Text,
    /// Where the bundle's file is fetched from.
    pub id: Text,
}

/// An asset, with its type and keys by number. The first dependency is the bundle that holds it, the first key its primary one.
#[derive(Debug, Drop)]
pub struct AssetRow {
    pub id: Text,
    pub kind: TypeNo,
    pub deps: Items<BundleNo>,
    pub keys: Items<KeyNo>,
}

/// An asset row as it is written, with its type and keys as texts.
#[derive(Debug, Drop)]
pub struct PlainAsset {
    pub id: Text,
    pub kind: Text,
    pub deps: Items<BundleNo>,
    pub keys: Items<Text>,
}

/// How the rows of several keys are joined.
#[derive(Clone, Copy, Debug, PartialEq, Eq)]
pub enum Merge {
    /// The rows of the first key that has any.
    UseFirst,
    /// The rows of some key.
    Union,
    /// The rows of every key.
    Intersection,
}

/// Which types are asked for.
#[derive(Clone, Copy, Debug, PartialEq, Eq)]
pub enum Kind {
    Any,
    Known(TypeNo),
    /// A type that no row has.
    Unknown,
}
