// An asset that is copied into several bundles.
use addr_base::Guid;

/// An asset that is no entry and is a member of several bundles.
#[derive(Clone, Copy, Debug, Drop, PartialEq, Eq)]
pub struct Duplicate {
    /// The place of the asset in the project's list.
    pub asset: u32,
    pub guid: Guid,
    /// How many bundles have a copy.
    pub bundles: u32,
    /// The bytes of all copies but one.
    pub wasted: u64,
}
