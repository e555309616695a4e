// What `check` prints of the entries that an update would move.
ghost use Rattle.std.specs.Prelude.{◌≡◌, ◌++◌, IfOk, OnOk, string_bytes};
ghost use Rattle.std.specs.List.{flat_map};
ghost use Rattle.addr_change.specs.CheckText.{move_line, moves_text};

use addr_base::NoMemory;
use addr_update::{Move, Why};
use std::alloc::Global;
use std::fmt::Write;

/// The text of the entries that would move.
pub fn moves_text(alloc: Global, moves: &[Move]) -> Result<String, NoMemory>
    ensures { IfOk result (λ text. string_bytes text ≡ moves_text moves.now) }
{
    let mut text = String::new(alloc);
    put_moves(&mut text, moves)?;
    let count = moves.len();
    writeln!(text, "check {count}")?;
    Ok(text)
}

fn put_moves(text: &mut String, moves: &[Move]) -> Result<(), NoMemory>
    ensures { OnOk result (string_bytes text.new ≡ string_bytes text.old ++ flat_map move_line moves.now) }
{
    for one in moves {
        put_move(text, one)?;
    }
    Ok(())
}

fn put_move(text: &mut String, one: &Move) -> Result<(), NoMemory>
    ensures { OnOk result (string_bytes text.new ≡ string_bytes text.old ++ move_line one.now) }
{
    let guid = one.guid;
    match one.why {
        Why::Before => writeln!(text, "moved {guid} before")?,
        Why::Unknown => writeln!(text, "moved {guid} unknown")?,
        Why::Changed(asset) => writeln!(text, "moved {guid} changed {asset}")?,
        Why::Led(asset) => writeln!(text, "moved {guid} led {asset}")?,
    }
    Ok(())
}
