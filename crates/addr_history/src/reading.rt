// What reading an asset gives, and why it is refused.
use addr_base::{BundleNo, Cause, Guid, Items, NoMemory};

/// Why an asset isn't read, in the order of the tests. The machine is as before.
#[derive(Clone, Copy, Debug, PartialEq, Eq)]
pub enum ReadErr {
    /// The operation isn't one that was opened and not yet released.
    NoHandle,
    /// The operation has fewer rows.
    NoAsset,
    /// One of the operation's bundles isn't resident yet.
    Pending,
    /// The operation failed.
    Failed(BundleNo, Cause),
    /// The asset, or something that it leads to, isn't in that bundle.
    Absent(BundleNo),
    NoMemory,
}

impl From<NoMemory> for ReadErr {
    ghost use Rattle.std.specs.Prelude.{◌≡◌};
    ghost use Rattle.addr_history.specs.declared.reading.ReadErr.TheVariants as errors;

    ghost from_gives = { λ _ e. e ≡ errors.NoMemory };

    fn from(_: NoMemory) -> Self {
        ReadErr::NoMemory
    }
}

/// Where an object is looked for: its bundle's number, and its GUID. Places stand in the order of their GUIDs, and under one
/// GUID in that of the bundles.
#[derive(Clone, Copy, Debug, PartialEq, Eq, PartialOrd, Ord)]
pub struct Place {
    pub guid: Guid,
    pub bundle: u32,
}

/// One asset of an unfolding: its bytes, and the assets that it refers to.
#[derive(Debug, Drop)]
pub struct Item2 {
    pub guid: Guid,
    pub bytes: Items<u8>,
    pub refs: Items<Guid>,
}
