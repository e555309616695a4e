// The entries that share a name, while a plan is made.
use addr_base::Items;

/// Entries of one name, so far. All are of one group, since names of different groups differ.
#[derive(Drop)]
pub struct Class {
    /// The number of their group.
    pub group: u32,
    /// Their numbers, ascending.
    pub entries: Items<u32>,
}
