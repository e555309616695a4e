// Members of a table, each read by what it stands for: a reader answers None for another kind and for a value outside its
// values, and the default where the member is absent.
ghost use Rattle.std.specs.Prelude.{◌≡◌, List, ℕ, Bool, if◌then◌else◌, map, Option, Some, None, IfOk};
ghost use Rattle.std.specs.Option.{option_map, option_copied};
ghost use Rattle.toml.specs.Data.{Data, Members, get_member, as_bool, as_table};
ghost use Rattle.toml.specs.View.{view, table_view};
ghost use Rattle.addr_project_rows.specs.Fields.{field, required, text_of, text_where, is_within, is_version, is_name, is_file_name, guid_of, guid_from, rows_of, most_text};

use crate::texts;
use addr_base::{Guid, NoMemory};
use std::alloc::Global;
use toml::{Table, Value};

pub fn member<'a>(table: &'a Table, key: &str) -> Option<&'a Value>
    ensures { option_map (λ v. view v.now) result ≡ get_member key.now (table_view table.now) }
{
    table.get(key)
}

/// The text, where it is good.
pub fn text_if(text: &str, good: bool) -> Option<&str>
    ensures { option_copied result ≡ (if good then Some text.now else None) }
{
    if good { Some(text) } else { None }
}

pub fn as_text(value: &Value) -> Option<&str>
    ensures { option_copied result ≡ text_of (view value.now) }
{
    match value.as_str() {
        Some(text) => text_if(text, texts::is_text(text)),
        None => None,
    }
}

/// A required text.
pub fn text_at<'a>(table: &'a Table, key: &str) -> Option<&'a str>
    ensures { option_copied result ≡ required key.now (table_view table.now) }
{
    match member(table, key) {
        Some(value) => as_text(value),
        None => None,
    }
}

/// A variable's value: a required text, which may be empty.
pub fn value_at<'a>(table: &'a Table, key: &str) -> Option<&'a str>
    ensures { option_copied result ≡ field (text_where (is_within 0 most_text)) None key.now (table_view table.now) }
{
    match member(table, key)?.as_str() {
        Some(text) => text_if(text, texts::is_within(text, 0, texts::MOST_TEXT)),
        None => None,
    }
}

/// A variable's name.
pub fn name_at<'a>(table: &'a Table, key: &str) -> Option<&'a str>
    ensures { option_copied result ≡ field (text_where is_name) None key.now (table_view table.now) }
{
    match member(table, key)?.as_str() {
        Some(text) => text_if(text, texts::is_variable_name(text)),
        None => None,
    }
}

/// A file's name below the folder.
pub fn file_at<'a>(alloc: Global, table: &'a Table, key: &str) -> Result<Option<&'a str>, NoMemory>
    ensures { IfOk result
        (λ file. option_copied file ≡ field (text_where is_file_name) None key.now (table_view table.now)) }
{
    let Some(value) = member(table, key) else {
        return Ok(None);
    };
    let Some(text) = value.as_str() else {
        return Ok(None);
    };
    if texts::is_file_name(alloc, text)? {
        Ok(Some(text))
    } else {
        Ok(None)
    }
}

pub fn bool_or(table: &Table, key: &str, default: bool) -> Option<bool>
    ensures { result ≡ field as_bool (Some default) key.now (table_view table.now) }
{
    match member(table, key) {
        Some(value) => value.as_bool(),
        None => Some(default),
    }
}

fn guid_from(text: &str) -> Option<Guid>
    ensures { result ≡ guid_from text.now }
{
    Guid::parse(text)
}

pub fn as_guid(value: &Value) -> Option<Guid>
    ensures { result ≡ guid_of (view value.now) }
{
    match value.as_str() {
        Some(text) => guid_from(text),
        None => None,
    }
}

pub fn guid_at(table: &Table, key: &str) -> Option<Guid>
    ensures { result ≡ field guid_of None key.now (table_view table.now) }
{
    match member(table, key) {
        Some(value) => as_guid(value),
        None => None,
    }
}

#[tactic(auto, using(crate::proofs::Lists::items_list_view))]
pub fn as_rows(value: &Value) -> Option<&[Value]>
    ensures { option_map (λ vs. map view vs.now) result ≡ rows_of (view value.now) }
{
    match value.as_array() {
        Some(values) => Some(values.as_slice()),
        None => None,
    }
}
