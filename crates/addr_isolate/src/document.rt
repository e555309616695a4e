// The document of a project file with one group and some entries more: known members are copied, table by table.
ghost use Rattle.std.specs.Prelude.{ℕ, ◌≡◌, ◌+◌, map, [], IfOk, OnOk};
ghost use Rattle.std.specs.List.{AllByRecursion, AllZip};
ghost use Rattle.toml.specs.View.{view, table_view};
ghost use Rattle.addr_project.specs.Rows.{rows};
ghost use Rattle.addr_isolate.specs.Document.{IsWithEntries, KeepsRow, entry_row, group_row, rows_member};
ghost use Rattle.addr_isolate.specs.Shallow.{AreShallow, IsPlain, IsSetIf, IsShallow, IsShallowRow, SetsRows, SetsTable};

use crate::members::{copy, kept, put};
use addr_base::{Guid, NoMemory};
use addr_project_rows::fields;
use std::alloc::Global;
use toml::{Table, Value};

/// The members of each table.
const PROFILE: &[&str] = &["local", "remote"];

const VARIABLE: &[&str] = &["name", "value"];

const GROUP: &[&str] = &["name", "mode", "fixed", "remote"];

const ASSET: &[&str] = &["guid", "type", "file", "refs"];

const ENTRY: &[&str] = &["guid", "group", "address", "labels"];

/// The rows of the array at a key; absent, or no array, it has none.
fn rows_at<'a>(tree: &'a Table, key: &str) -> &'a [Value]
    ensures { map view result.now ≡ rows key.now (table_view tree.now) }
{
    match fields::member(tree, key) {
        Some(value) => match fields::as_rows(value) {
            Some(rows) => rows,
            None => &[],
        },
        None => &[],
    }
}

/// A row with the members of these names alone; what is no table is copied.
fn kept_row(alloc: Global, row: &Value, names: &[&str]) -> Result<Value, NoMemory>
    ensures keeps { IfOk result (λ new. KeepsRow (map (λ name. name.now) names.now) (view row.now) (view new)) }
    ensures shallow { IfOk result
        (λ new. (n : ℕ) → IsShallowRow n (map (λ name. name.now) names.now) (view row.now)
        → IsShallow (n + 1) (view new)) }
{
    match row.as_table() {
        Some(table) => Ok(Value::Table(kept(alloc, table, names)?)),
        None => Ok(row.clone()?),
    }
}

/// Rows with the members of these names alone.
fn kept_rows(alloc: Global, rows: &[Value], names: &[&str]) -> Result<Vec<Value>, NoMemory>
    ensures keeps { IfOk result
        (λ new. AllZip (KeepsRow (map (λ name. name.now) names.now)) (map view rows.now) (map view new.items)) }
    ensures shallow { IfOk result
        (λ new. (n : ℕ) → AllByRecursion (IsShallowRow n (map (λ name. name.now) names.now)) (map view rows.now)
        → AllByRecursion (IsShallow (n + 1)) (map view new.items)) }
{
    let mut kept = Vec::new(alloc);
    for row in rows {
        kept.push(kept_row(alloc, row, names)?)?;
    }
    Ok(kept)
}

/// The row of a group that has nothing but a name.
fn group_row(alloc: Global, name: &str) -> Result<Value, NoMemory>
    ensures { IfOk result (λ row. view row ≡ group_row name.now) }
{
    let mut row = Table::new(alloc);
    put(alloc, &mut row, "name", Value::string(alloc, name)?)?;
    Ok(Value::Table(row))
}

/// The row of an entry of a group, with the digits of its GUID as address.
fn entry_row(alloc: Global, group: &str, guid: Guid) -> Result<Value, NoMemory>
    ensures { IfOk result (λ row. view row ≡ entry_row group.now guid) }
{
    let digits = format!(in alloc; "{guid}")?;
    let mut row = Table::new(alloc);
    put(alloc, &mut row, "guid", Value::string(alloc, &digits)?)?;
    put(alloc, &mut row, "group", Value::string(alloc, group)?)?;
    put(alloc, &mut row, "address", Value::string(alloc, &digits)?)?;
    Ok(Value::Table(row))
}

/// The rows of entries of a group.
fn entry_rows(alloc: Global, group: &str, guids: &[Guid]) -> Result<Vec<Value>, NoMemory>
    ensures { IfOk result (λ rows. map view rows.items ≡ map (entry_row group.now) guids.now) }
{
    let mut rows = Vec::new(alloc);
    for guid in guids {
        rows.push(entry_row(alloc, group, *guid)?)?;
    }
    Ok(rows)
}

/// Puts an array of rows into a table, unless there are none.
fn put_array(alloc: Global, new: &mut Table, key: &str, rows: Vec<Value>) -> Result<(), NoMemory>
    ensures { OnOk result (IsSetIf key.now (rows_member (map view rows.items))
        (table_view new.old) (table_view new.new)) }
{
    if rows.is_empty() {
        Ok(())
    } else {
        put(alloc, new, key, Value::Array(rows))
    }
}

/// Puts the rows of another table's array into a table, with the members of these names alone, and then some rows more.
fn put_rows(
    alloc: Global,
    tree: &Table,
    key: &str,
    names: &[&str],
    mut added: Vec<Value>,
    new: &mut Table,
) -> Result<(), NoMemory>
    ensures { OnOk result
        (SetsRows (map (λ name. name.now) names.now) key.now (table_view tree.now) (map view added.items)
        (table_view new.old) (table_view new.new)) }
{
    let mut rows = kept_rows(alloc, rows_at(tree, key), names)?;
    rows.append(&mut added)?;
    put_array(alloc, new, key, rows)
}

/// Puts another table's table into a table, with the members of these names alone.
fn put_table(
    alloc: Global,
    tree: &Table,
    key: &str,
    names: &[&str],
    new: &mut Table,
) -> Result<(), NoMemory>
    ensures { OnOk result
        (SetsTable (map (λ name. name.now) names.now) key.now (table_view tree.now)
        (table_view new.old) (table_view new.new)) }
{
    let Some(value) = fields::member(tree, key) else {
        return Ok(());
    };
    match value.as_table() {
        Some(table) => put(alloc, new, key, Value::Table(kept(alloc, table, names)?)),
        None => Ok(()),
    }
}

/// The document of a project file with a group of this name and its entries, which stand last. Members that the format doesn't
/// have are left out.
pub fn with_entries(
    alloc: Global,
    tree: &Table,
    group: &str,
    guids: &[Guid],
) -> Result<Table, NoMemory>
    ensures entries { IfOk result (λ new. IsWithEntries (table_view tree.now) group.now guids.now (table_view new)) }
    ensures shallow { IfOk result (λ new. IsPlain (table_view tree.now) → AreShallow 3 (table_view new)) }
{
    let mut groups = Vec::new(alloc);
    groups.push(group_row(alloc, group)?)?;
    let entries = entry_rows(alloc, group, guids)?;
    let mut new = Table::new(alloc);
    copy(alloc, tree, "version", &mut new)?;
    put_table(alloc, tree, "profile", PROFILE, &mut new)?;
    put_rows(alloc, tree, "variable", VARIABLE, Vec::new(alloc), &mut new)?;
    put_rows(alloc, tree, "group", GROUP, groups, &mut new)?;
    put_rows(alloc, tree, "asset", ASSET, Vec::new(alloc), &mut new)?;
    put_rows(alloc, tree, "entry", ENTRY, entries, &mut new)?;
    Ok(new)
}
