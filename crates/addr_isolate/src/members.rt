// Tables made member by member.
ghost use Rattle.std.specs.Prelude.{ℕ, ◌≡◌, map, IfOk, OnOk};
ghost use Rattle.toml.specs.Data.{get_member};
ghost use Rattle.toml.specs.View.{view, table_view};
ghost use Rattle.addr_isolate.specs.Document.{Keeps};
ghost use Rattle.addr_isolate.specs.Shallow.{AreShallow, AreShallowAt, IsSet, IsSetIf, with_member};

use addr_base::NoMemory;
use addr_project_rows::fields;
use std::alloc::Global;
use toml::{Table, Value};

/// Puts a member into a table, in place of one with the same name.
pub fn put(alloc: Global, new: &mut Table, name: &str, value: Value) -> Result<(), NoMemory>
    ensures member { OnOk result (table_view new.new ≡ with_member name.now (view value) (table_view new.old)) }
    ensures set { OnOk result (IsSet name.now (view value) (table_view new.old) (table_view new.new)) }
{
    let name = String::from_str(alloc, name)?;
    drop(new.insert(name, value)?);
    Ok(())
}

/// Puts a copy of another table's member into a table, where that one has it.
pub fn copy(alloc: Global, table: &Table, name: &str, new: &mut Table) -> Result<(), NoMemory>
    ensures { OnOk result (IsSetIf name.now (get_member name.now (table_view table.now))
        (table_view new.old) (table_view new.new)) }
{
    match fields::member(table, name) {
        Some(value) => {
            let value = value.clone()?;
            put(alloc, new, name, value)
        }
        None => Ok(()),
    }
}

/// The members of a table with these names, as they are.
pub fn kept(alloc: Global, table: &Table, names: &[&str]) -> Result<Table, NoMemory>
    ensures keeps { IfOk result (λ new. Keeps (map (λ name. name.now) names.now) (table_view table.now) (table_view new)) }
    ensures shallow { IfOk result
        (λ new. (n : ℕ) → AreShallowAt n (map (λ name. name.now) names.now) (table_view table.now)
        → AreShallow n (table_view new)) }
{
    let mut new = Table::new(alloc);
    for name in names {
        copy(alloc, table, name, &mut new)?;
    }
    Ok(new)
}
