// What the rows of a project file say by themselves, before GUIDs and names are looked up and files are read.
ghost use Rattle.addr_project.specs.Rows.{asset_of, entry_of};

use crate::model::Group;
use addr_base::{Guid, Items, NoMemory, Text, Var};
use addr_project_rows::{Keyed, Row, fields, labels_at, list_at};
use std::alloc::Global;
use toml::Value;

/// A row `[[asset]]`.
#[derive(Drop)]
pub struct AssetRow {
    pub guid: Guid,
    pub kind: Text,
    /// The file's name below the folder.
    pub file: Text,
    pub refs: Items<Guid>,
}

/// A row `[[entry]]`.
#[derive(Drop)]
pub struct EntryRow {
    pub guid: Guid,
    /// The group's name.
    pub group: Text,
    pub address: Text,
    /// In ascending order of their bytes, each once.
    pub labels: Items<Text>,
}

/// A project file whose fields are all good.
#[derive(Drop)]
pub struct ProjectFile {
    pub version: Text,
    /// Not yet expanded.
    pub local: Text,
    /// Not yet expanded.
    pub remote: Text,
    pub variables: Items<Var>,
    pub groups: Items<Group>,
    pub assets: Items<AssetRow>,
    pub entries: Items<EntryRow>,
}

impl Row for AssetRow {
    ghost row_of = { asset_of };

    fn read(alloc: Global, row: &Value) -> Result<Option<AssetRow>, NoMemory> {
        let Some(table) = row.as_table() else {
            return Ok(None);
        };
        let Some(guid) = fields::guid_at(table, "guid") else {
            return Ok(None);
        };
        let Some(kind) = fields::text_at(table, "type") else {
            return Ok(None);
        };
        let Some(file) = fields::file_at(alloc, table, "file")? else {
            return Ok(None);
        };
        let Some(refs) = list_at::<Guid>(alloc, table, "refs")? else {
            return Ok(None);
        };
        let kind = Text::copy_of(alloc, kind)?;
        let file = Text::copy_of(alloc, file)?;
        Ok(Some(AssetRow {
            guid,
            kind,
            file,
            refs,
        }))
    }
}

impl Row for EntryRow {
    ghost row_of = { entry_of };

    fn read(alloc: Global, row: &Value) -> Result<Option<EntryRow>, NoMemory> {
        let Some(table) = row.as_table() else {
            return Ok(None);
        };
        let Some(guid) = fields::guid_at(table, "guid") else {
            return Ok(None);
        };
        let Some(group) = fields::text_at(table, "group") else {
            return Ok(None);
        };
        let Some(address) = fields::text_at(table, "address") else {
            return Ok(None);
        };
        let Some(labels) = labels_at(alloc, table, "labels")? else {
            return Ok(None);
        };
        let group = Text::copy_of(alloc, group)?;
        let address = Text::copy_of(alloc, address)?;
        Ok(Some(EntryRow {
            guid,
            group,
            address,
            labels,
        }))
    }
}

impl Keyed for AssetRow {
    ghost key_of = { λ a. a.guid.0 };

    fn key(&self) -> &[u8] {
        self.guid.0.as_slice()
    }
}

impl Keyed for EntryRow {
    ghost key_of = { λ e. e.guid.0 };

    fn key(&self) -> &[u8] {
        self.guid.0.as_slice()
    }
}
