// What a project file stands for before the files of its assets are read.
use crate::model::{Entry, Group};
use crate::rows::AssetRow;
use addr_base::{Items, Text, Var};

/// The texts of a profile, expanded.
#[derive(Drop)]
pub struct Texts {
    pub local: Text,
    pub remote: Text,
}

/// What a file's tests find out: the expanded texts, and the entries with numbers.
#[derive(Drop)]
pub struct Checked {
    pub local: Text,
    pub remote: Text,
    pub entries: Items<Entry>,
}

/// A project but for the bytes of its assets.
#[derive(Drop)]
pub struct Parts {
    pub version: Text,
    pub local: Text,
    pub remote: Text,
    pub variables: Items<Var>,
    pub groups: Items<Group>,
    pub assets: Items<AssetRow>,
    pub entries: Items<Entry>,
}
