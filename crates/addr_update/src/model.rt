// What is kept of a release, why an entry moves, and what is wrong with a release.
use addr_base::{Digest, Guid, Items, Text};
use addr_cab::CabErr;
use addr_unityfs::FsErr;

/// A bundle of the state that stays: its name there, the number of its group in the project, and the numbers of the entries
/// that are kept in it, ascending.
#[derive(Debug, Drop)]
pub struct KeptBundle {
    pub name: Text,
    pub group: u32,
    pub entries: Items<u32>,
}

/// Why an entry moves: the first of these that holds.
#[derive(Clone, Copy, Debug, PartialEq, Eq)]
pub enum Why {
    /// It has moved already, since the last full build.
    Before,
    /// The state has it in no fixed bundle of its present group.
    Unknown,
    /// The least asset that it leads to and that isn't as it was built.
    Changed(Guid),
    /// The least asset to which a built reference leads elsewhere than it may.
    Led(Guid),
}

/// An entry that moves, by the GUID of its asset.
#[derive(Clone, Copy, Debug, PartialEq, Eq)]
pub struct Move {
    pub guid: Guid,
    pub why: Why,
}

/// What is wrong with a file of a release. A file's own tests are made in this order, from its size on.
#[derive(Clone, Copy, Debug, PartialEq, Eq, Drop)]
pub enum NotIntact {
    /// It isn't there.
    Missing,
    /// It is the state, and this is the number of its first fault.
    State(u8),
    /// Its length in bytes.
    Size { said: u64, found: u64 },
    /// The digest of its bytes.
    Digest { said: Digest, found: Digest },
    /// Its first fault as a bundle.
    Fs(FsErr),
    /// The first fault of its table of objects.
    Cab(CabErr),
    /// It has other objects than the state lists.
    Objects,
}
