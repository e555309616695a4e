// What `analyze` prints: a line for each duplicate, and one for all of them.
ghost use Rattle.std.specs.Prelude.{◌≡◌, ◌++◌, IfOk, OnOk, string_bytes};
ghost use Rattle.std.specs.List.{flat_map, sum_by};
ghost use Rattle.addr_show.specs.AnalyzeText.{analyze_text, duplicate_line};

use addr_analyze::Duplicate;
use addr_base::{NoMemory, Text};
use std::alloc::Global;
use std::fmt::Write;

/// The text of duplicates that waste so many bytes together.
pub fn analyze_text(alloc: Global, found: &[Duplicate], wasted: u64) -> Result<Text, NoMemory>
    requires { wasted ≡ sum_by (λ d. d.wasted) found.now }
    ensures { IfOk result (λ text. text ≡ analyze_text found.now) }
{
    let mut text = String::new(alloc);
    put_duplicates(&mut text, found)?;
    let count = found.len();
    writeln!(text, "analyze {count} {wasted}")?;
    Ok(Text::from_string(text))
}

fn put_duplicates(text: &mut String, found: &[Duplicate]) -> Result<(), NoMemory>
    ensures { OnOk result (string_bytes text.new ≡ string_bytes text.old ++ flat_map duplicate_line found.now) }
{
    for duplicate in found {
        put_duplicate(text, duplicate)?;
    }
    Ok(())
}

fn put_duplicate(text: &mut String, duplicate: &Duplicate) -> Result<(), NoMemory>
    ensures { OnOk result (string_bytes text.new ≡ string_bytes text.old ++ duplicate_line duplicate.now) }
{
    let guid = duplicate.guid;
    let bundles = duplicate.bundles;
    let wasted = duplicate.wasted;
    writeln!(text, "duplicate {guid} {bundles} {wasted}")?;
    Ok(())
}
