// The table `[[group]]`: modes by their words, and rows.
ghost use Rattle.std.specs.Prelude.{◌≡◌, Some};
ghost use Rattle.toml.specs.View.{view, table_view};
ghost use Rattle.addr_project.specs.Modes.{mode_from, mode_of};
ghost use Rattle.addr_project.specs.Rows.{group_of};
ghost use Rattle.addr_project.specs.declared.model.Mode.TheVariants.{Together};
ghost use Rattle.addr_project_rows.specs.Fields.{field};

use crate::model::{Group, Mode};
use addr_base::{NoMemory, Text};
use addr_project_rows::{Keyed, Row, fields};
use std::alloc::Global;
use toml::{Table, Value};

fn mode_from(text: &str) -> Option<Mode>
    ensures { result ≡ mode_from text.now }
{
    if text == "together" {
        Some(Mode::Together)
    } else if text == "separate" {
        Some(Mode::Separate)
    } else if text == "label" {
        Some(Mode::Label)
    } else {
        None
    }
}

fn as_mode(value: &Value) -> Option<Mode>
    ensures { result ≡ mode_of (view value.now) }
{
    match value.as_str() {
        Some(text) => mode_from(text),
        None => None,
    }
}

/// A group's mode, by default together.
fn mode_at(table: &Table, key: &str) -> Option<Mode>
    ensures { result ≡ field mode_of (Some Together) key.now (table_view table.now) }
{
    match fields::member(table, key) {
        Some(value) => as_mode(value),
        None => Some(Mode::Together),
    }
}

impl Row for Group {
    ghost row_of = { group_of };

    fn read(alloc: Global, row: &Value) -> Result<Option<Group>, NoMemory> {
        let Some(table) = row.as_table() else {
            return Ok(None);
        };
        let Some(name) = fields::text_at(table, "name") else {
            return Ok(None);
        };
        let Some(mode) = mode_at(table, "mode") else {
            return Ok(None);
        };
        let Some(fixed) = fields::bool_or(table, "fixed", false) else {
            return Ok(None);
        };
        let Some(remote) = fields::bool_or(table, "remote", false) else {
            return Ok(None);
        };
        let name = Text::copy_of(alloc, name)?;
        Ok(Some(Group {
            name,
            mode,
            fixed,
            remote,
        }))
    }
}

impl Keyed for Group {
    ghost key_of = { λ g. g.name };

    fn key(&self) -> &[u8] {
        self.name.as_bytes()
    }
}
