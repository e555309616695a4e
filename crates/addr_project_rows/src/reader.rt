// Rows of tables and items of arrays, read one by one up to the first that stands for nothing.
ghost use Rattle.std.specs.Prelude.{◌≡◌, ◌≤◌, ◌^◌, List, ℕ, Option, Some, [], map, IfOk, IfErr};
ghost use Rattle.std.specs.Option.{option_map, option_copied};
ghost use Rattle.toml.specs.Data.{Data};
ghost use Rattle.toml.specs.View.{view, table_view};
ghost use Rattle.addr_base.specs.declared.ids.Guid.{Guid};
ghost use Rattle.addr_base.specs.declared.var.Var.{Var};
ghost use Rattle.addr_project_rows.specs.Fields.{text_of, guid_of, field, list_of, all_of};
ghost use Rattle.addr_project_rows.specs.Readings.{RowsRead, VariablesRead};
ghost use Rattle.addr_project_rows.specs.Variables.{variable_of};

use crate::fields;
use crate::keys::first_repeat;
use addr_base::{Guid, Items, NoMemory, Text, Var};
use std::alloc::Global;
use toml::{Table, Value};

/// What a row of a table or an item of an array is read as.
pub trait Row {
    ghost row_of: { Data → Option Self };

    /// The row, or None where it stands for nothing.
    fn read(alloc: Global, row: &Value) -> Result<Option<Self>, NoMemory>
    where
        Self: Sized,
        ensures { IfOk result (λ found. found ≡ row_of (view row.now)) };
}

/// The rows up to the first that stands for nothing, and the number of the first bad one.
#[derive(Drop)]
pub struct Rows<T> {
    pub found: Items<T>,
    pub bad: Option<u32>,
}

/// Reads rows up to the first bad one.
pub fn rows_read<T: Row + Drop>(alloc: Global, rows: &[Value]) -> Result<Rows<T>, NoMemory>
    ensures { IfOk result (λ r. RowsRead T.row_of (map view rows.now) r.found r.bad) }
{
    let mut found = Items::new(alloc);
    for (i, row) in rows.iter().enumerate() {
        match T::read(alloc, row)? {
            Some(item) => found.push(item)?,
            None => {
                let bad = row_number(i)?;
                return Ok(Rows {
                    found,
                    bad: Some(bad),
                });
            }
        }
    }
    Ok(Rows { found, bad: None })
}

/// A row's number; a place past the numbers is more than memory is promised to hold.
pub fn row_number(place: usize) -> Result<u32, NoMemory>
    ensures ok { IfOk result (λ number. number ≡ place) }
    ensures err { IfErr result (λ e. 2 ^ 32 ≤ place) }
{
    match u32::try_from(place) {
        Ok(number) => Ok(number),
        Err(_) => Err(NoMemory),
    }
}

/// The items of an array, or None where one of them is bad.
fn items_read<T: Row + Drop>(alloc: Global, rows: &[Value]) -> Result<Option<Items<T>>, NoMemory>
    ensures { IfOk result (λ items. items ≡ all_of T.row_of (map view rows.now)) }
{
    let Rows { found, bad } = rows_read::<T>(alloc, rows)?;
    match bad {
        Some(_) => Ok(None),
        None => Ok(Some(found)),
    }
}

/// The items of the array at a key, or None where the member is no array or an item is bad; absent it has none.
pub fn list_at<T: Row + Drop>(
    alloc: Global,
    table: &Table,
    key: &str,
) -> Result<Option<Items<T>>, NoMemory>
    ensures { IfOk result (λ items. items ≡ field (list_of T.row_of) (Some []) key.now (table_view table.now)) }
{
    let Some(value) = fields::member(table, key) else {
        return Ok(Some(Items::new(alloc)));
    };
    let Some(rows) = fields::as_rows(value) else {
        return Ok(None);
    };
    items_read::<T>(alloc, rows)
}

/// Reads variables up to the first that stands for nothing. The bad one is the first that does, or repeats a name.
pub fn variables_read(alloc: Global, rows: &[Value]) -> Result<Rows<Var>, NoMemory>
    ensures { IfOk result (λ r. VariablesRead (map view rows.now) r.found r.bad) }
{
    let Rows { found, bad } = rows_read::<Var>(alloc, rows)?;
    match first_repeat(alloc, found.as_slice())? {
        Some(row) => Ok(Rows {
            found,
            bad: Some(row),
        }),
        None => Ok(Rows { found, bad }),
    }
}

impl Row for Text {
    ghost row_of = { text_of };

    fn read(alloc: Global, row: &Value) -> Result<Option<Text>, NoMemory> {
        match fields::as_text(row) {
            Some(text) => Ok(Some(Text::copy_of(alloc, text)?)),
            None => Ok(None),
        }
    }
}

impl Row for Guid {
    ghost row_of = { guid_of };

    fn read(_: Global, row: &Value) -> Result<Option<Guid>, NoMemory> {
        Ok(fields::as_guid(row))
    }
}

impl Row for Var {
    ghost row_of = { variable_of };

    fn read(alloc: Global, row: &Value) -> Result<Option<Var>, NoMemory> {
        let Some(table) = row.as_table() else {
            return Ok(None);
        };
        let Some(name) = fields::name_at(table, "name") else {
            return Ok(None);
        };
        let Some(value) = fields::value_at(table, "value") else {
            return Ok(None);
        };
        let name = Text::copy_of(alloc, name)?;
        let value = Text::copy_of(alloc, value)?;
        Ok(Some(Var { name, value }))
    }
}
