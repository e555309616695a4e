// What a project is made of. All of it is plain data; assets and groups are named by their places in the project's lists.
use addr_base::{Guid, Items, Text};

/// How a group's entries are put into bundles.
#[derive(Clone, Copy, Debug, PartialEq, Eq)]
pub enum Mode {
    /// All entries in one bundle.
    Together,
    /// A bundle for each entry.
    Separate,
    /// A bundle for each set of labels.
    Label,
}

#[derive(Debug, Drop)]
pub struct Group {
    pub name: Text,
    pub mode: Mode,
    /// Content that was released stays as it is; what changed moves to another group.
    pub fixed: bool,
    /// Built into the folder of remote bundles.
    pub remote: bool,
}

#[derive(Debug, Drop)]
pub struct Asset {
    pub guid: Guid,
    /// The class name.
    pub kind: Text,
    pub bytes: Items<u8>,
    /// In the order of the file, with repeats; an asset may refer to itself.
    pub refs: Items<Guid>,
}

#[derive(Debug, Drop)]
pub struct Entry {
    /// The place of its asset.
    pub asset: u32,
    /// The place of its group.
    pub group: u32,
    pub address: Text,
    /// In ascending order of their bytes, each once.
    pub labels: Items<Text>,
}
