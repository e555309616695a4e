// A placement of a project's entries, all of it plain data. A bundle's number is its place in the list.
use addr_base::{Items, Text};

/// The bundles of a project, in byte order of their names.
#[derive(Debug, Drop)]
pub struct Plan {
    pub bundles: Items<PlanBundle>,
}

/// A bundle: what it is named, the group that it belongs to, and which entries stand in it.
#[derive(Debug, Drop)]
pub struct PlanBundle {
    pub name: Text,
    /// The number of its group.
    pub group: u32,
    /// Taken over from an earlier release, with the file that it has there.
    pub kept: bool,
    /// The numbers of its entries, ascending.
    pub entries: Items<u32>,
}
