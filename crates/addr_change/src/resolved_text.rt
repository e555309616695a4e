// What `resolve` prints of the rows that a release shows under a key.
ghost use Rattle.std.specs.Prelude.{◌≡◌, ◌++◌, ◌∷◌, IfOk, OnOk, map, string_bytes};
ghost use Rattle.std.specs.List.{flat_map};
ghost use Rattle.addr_base.specs.Ids.{hex_of};
ghost use Rattle.addr_resolve.specs.Items.{item_view};
ghost use Rattle.addr_resolve.specs.Resolving.{row_view};
ghost use Rattle.addr_change.specs.ResolvedText.{guids_text, item_line, row_lines, rows_text};

use addr_base::{Guid, NoMemory, token};
use addr_resolve::{Item, Resolved};
use addr_script::content;
use std::alloc::Global;
use std::fmt::Write;

/// The text of rows with their items.
pub fn rows_text(alloc: Global, rows: &[Resolved]) -> Result<String, NoMemory>
    ensures { IfOk result (λ text. string_bytes text ≡ rows_text (map row_view rows.now)) }
{
    let mut text = String::new(alloc);
    put_rows(alloc, &mut text, rows)?;
    Ok(text)
}

fn put_rows(alloc: Global, text: &mut String, rows: &[Resolved]) -> Result<(), NoMemory>
    ensures { OnOk result
        (string_bytes text.new ≡ string_bytes text.old ++ rows_text (map row_view rows.now)) }
{
    for row in rows {
        put_row(alloc, text, row)?;
    }
    Ok(())
}

fn put_row(alloc: Global, text: &mut String, row: &Resolved) -> Result<(), NoMemory>
    ensures { OnOk result (string_bytes text.new ≡ string_bytes text.old ++ row_lines (row_view row.now)) }
{
    let kind = token(alloc, row.kind.as_str())?;
    let kind = kind.as_str();
    let guid = row.guid;
    writeln!(text, "asset {guid} {kind}")?;
    put_items(alloc, text, row.items.as_slice())?;
    Ok(())
}

fn put_items(alloc: Global, text: &mut String, items: &[Item]) -> Result<(), NoMemory>
    ensures { OnOk result
        (string_bytes text.new ≡ string_bytes text.old ++ flat_map item_line (map item_view items.now)) }
{
    for item in items {
        put_item(alloc, text, item)?;
    }
    Ok(())
}

fn put_item(alloc: Global, text: &mut String, item: &Item) -> Result<(), NoMemory>
    ensures { OnOk result (string_bytes text.new ≡ string_bytes text.old ++ item_line (item_view item.now)) }
{
    let content = content(alloc, item.bytes.as_slice())?;
    let shown = content.as_str();
    let guid = item.guid;
    let length = item.bytes.len() as u64;
    write!(text, "item {guid} {length} {shown} ")?;
    put_guids(text, item.refs.as_slice())?;
    writeln!(text)?;
    Ok(())
}

fn put_guids(text: &mut String, guids: &[Guid]) -> Result<(), NoMemory>
    ensures { OnOk result (string_bytes text.new ≡ string_bytes text.old ++ guids_text guids.now) }
{
    match guids {
        [] => {
            text.push('-')?;
            Ok(())
        }
        [first, rest @ ..] => {
            let first = *first;
            write!(text, "{first}")?;
            put_more_guids(text, rest)
        }
    }
}

fn put_more_guids(text: &mut String, guids: &[Guid]) -> Result<(), NoMemory>
    ensures { OnOk result
        (string_bytes text.new ≡ string_bytes text.old ++ flat_map (λ more. 44 ∷ hex_of more.0) guids.now) }
{
    for more in guids {
        let more = *more;
        write!(text, ",{more}")?;
    }
    Ok(())
}
