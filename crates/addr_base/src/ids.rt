// The numbers and names that every layer speaks of. A number counts from 0, in the order of the list that it names.

/// A globally unique identifier of an asset: 16 bytes, written as 32 lower-case hex digits.
#[derive(Clone, Copy, Debug, PartialEq, Eq, PartialOrd, Ord)]
pub struct Guid(pub [u8; 16]);

/// The first 16 bytes of a SHA-256 digest (FIPS 180-4).
#[derive(Clone, Copy, Debug, PartialEq, Eq, PartialOrd, Ord)]
pub struct Digest(pub [u8; 16]);

/// The place of a bundle row in a catalogue.
#[derive(Clone, Copy, Debug, PartialEq, Eq)]
pub struct BundleNo(pub u32);

/// The place of an asset row in a catalogue.
#[derive(Clone, Copy, Debug, PartialEq, Eq)]
pub struct RowNo(pub u32);

/// The place of a key in a catalogue's list of keys.
#[derive(Clone, Copy, Debug, PartialEq, Eq)]
pub struct KeyNo(pub u32);

/// The place of a resource type in a catalogue's list of types.
#[derive(Clone, Copy, Debug, PartialEq, Eq)]
pub struct TypeNo(pub u32);

/// An operation (handle): the place of its load among all loads of a history.
#[derive(Clone, Copy, Debug, PartialEq, Eq)]
pub struct OpId(pub u32);
