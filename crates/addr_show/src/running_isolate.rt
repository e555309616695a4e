// `isolate`: its words, and its end as a line and a status.
ghost use Rattle.std.specs.Prelude.{◌≡◌, ◌++◌, ◌∷◌, [], IfOk, MatchOption, Some, Ok, codes, string_bytes};
ghost use Rattle.addr_base.specs.Faults.{one_more};
ghost use Rattle.addr_show.specs.Analyzing.{HasCauses};
ghost use Rattle.addr_show.specs.Isolating.{AsksToIsolate, IsIsolateLine, IsolatesTo, PrintsIsolated, isolated_line};
ghost use Rattle.addr_show.specs.Printing.{PrintsText};

use crate::error::AnalyzeErr;
use crate::isolating::{NewGroup, isolate};
use crate::printing::{print, print_usage, print_want};
use crate::running::print_refusal;
use addr_base::{Depot, NoMemory, Sink, Text, token};
use addr_fields::is_same;
use std::alloc::Global;

/// What is printed where a project has no duplicate. It takes no memory.
const NONE_LINE: &[u8] = b"isolated 0 %-\n";

/// Runs the command that makes a project folder's duplicates entries of a group of their own, and answers its exit status. What it
/// prints is put at once.
pub fn run_isolate<D: Depot, K: Sink>(
    alloc: Global,
    words: &[Text],
    depot: &mut D,
    out: &mut K,
) -> u8
    ensures outcome { IsolatesTo words.now (D.now depot.old) (D.now depot.new) (K.now out.old) (K.now out.new) result }
    ensures causes { HasCauses (D.now depot.old) (D.now depot.new) (K.now out.old) (K.now out.new) result }
    ensures one_put { (K.now out.new).puts ≡ one_more (K.now out.old).puts }
{
    let Some(folder) = folder_of(words) else {
        return print_usage(out);
    };
    let ended = isolate(alloc, depot, folder.as_str());
    print_end(alloc, &ended, out)
}

/// The folder that the words ask to isolate, where they are the words of `isolate`.
fn folder_of(words: &[Text]) -> Option<&Text>
    ensures { MatchOption result (IsIsolateLine words.now → ⊥) (λ folder. AsksToIsolate words.now folder.now) }
{
    match words {
        [command, folder] => {
            if is_same(command.as_bytes(), b"isolate") {
                Some(folder)
            } else {
                None
            }
        }
        _ => None,
    }
}

/// Prints the line of an end.
fn print_end<K: Sink>(
    alloc: Global,
    ended: &Result<Option<NewGroup>, AnalyzeErr>,
    out: &mut K,
) -> u8
    ensures prints { PrintsIsolated ended.now result (K.now out.old) (K.now out.new) }
    ensures once { (K.now out.new).puts ≡ one_more (K.now out.old).puts }
{
    match ended {
        Ok(made) => print_isolated(alloc, made, out),
        Err(refusal) => print_refusal(alloc, refusal, out),
    }
}

/// Prints the line of the group that there is now, or the line that says that there was no duplicate.
fn print_isolated<K: Sink>(alloc: Global, made: &Option<NewGroup>, out: &mut K) -> u8
    ensures prints { PrintsIsolated (Ok made.now) result (K.now out.old) (K.now out.new) }
    ensures once { (K.now out.new).puts ≡ one_more (K.now out.old).puts }
{
    match made {
        Some(made) => print_made(alloc, made, out),
        None => print_none(out),
    }
}

/// Prints the line that says that there was no duplicate.
fn print_none<K: Sink>(out: &mut K) -> u8
    ensures prints { PrintsText 0 (codes "isolated 0 %-" ++ 10 ∷ []) result (K.now out.old) (K.now out.new) }
    ensures once { (K.now out.new).puts ≡ one_more (K.now out.old).puts }
{
    print(out, NONE_LINE, 0)
}

/// Writes the line of a new group and prints it, or the line that says that memory is wanted.
fn print_made<K: Sink>(alloc: Global, made: &NewGroup, out: &mut K) -> u8
    ensures prints { PrintsIsolated (Ok (Some made.now)) result (K.now out.old) (K.now out.new) }
    ensures once { (K.now out.new).puts ≡ one_more (K.now out.old).puts }
{
    match made_line(alloc, made) {
        Ok(line) => print(out, line.as_bytes(), 0),
        Err(NoMemory) => print_want(out),
    }
}

fn made_line(alloc: Global, made: &NewGroup) -> Result<String, NoMemory>
    ensures { IfOk result (λ line. string_bytes line ≡ isolated_line (Some made.now) ++ 10 ∷ []) }
{
    let token = token(alloc, made.name.as_str())?;
    let name = token.as_str();
    let count = made.count;
    Ok(format!(in alloc; "isolated {count} {name}\n")?)
}
