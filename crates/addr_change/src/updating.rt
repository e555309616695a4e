// `update`: its words, and its end as a line and a status. What is kept, made and put is decided by addr_patch.
ghost use Rattle.std.specs.Prelude.{◌≡◌, ◌++◌, ◌∷◌, [], IfOk, MatchOption, string_bytes};
ghost use Rattle.addr_base.specs.Faults.{one_more};
ghost use Rattle.addr_change.specs.Printing.{HasCauses};
ghost use Rattle.addr_change.specs.Updating.{AsksToUpdate, IsUpdateLine, PrintsEnd, TakesMemory, UpdatesTo, refused_line, summary_line, updated_line, updated_status};

use crate::building::taken_line;
use crate::checking::{missing_line, wrong_line};
use crate::printing::{DEPOT_LINE, MEMORY_LINE, print, print_usage, print_want};
use addr_base::{Depot, NoMemory, Sink, Text};
use addr_build::Summary;
use addr_fields::is_same;
use addr_patch::{UpdateErr, update};
use std::alloc::Global;

/// Runs the command that updates the release of a project folder, and answers its exit status. What it prints is one line, by
/// one put. Before the first file is put the release is opened and all limits are measured; what stands in the folder after each
/// refusal is `Answers` of addr_patch.
pub fn run_update<D: Depot, K: Sink>(
    alloc: Global,
    words: &[Text],
    depot: &mut D,
    out: &mut K,
) -> u8
    ensures outcome { UpdatesTo words.now (D.now depot.old) (D.now depot.new) (K.now out.old) (K.now out.new) result }
    ensures causes { HasCauses (D.now depot.old) (D.now depot.new) (K.now out.old) (K.now out.new) result }
    ensures one_put { (K.now out.new).puts ≡ one_more (K.now out.old).puts }
{
    let Some(folder) = folder_of(words) else {
        return print_usage(out);
    };
    let ended = update(alloc, depot, folder.as_str());
    print_end(alloc, &ended, out)
}

/// The folder that the words ask to update, where they are the words of `update`.
fn folder_of(words: &[Text]) -> Option<&Text>
    ensures { MatchOption result (IsUpdateLine words.now → ⊥) (λ folder. AsksToUpdate words.now folder.now) }
{
    match words {
        [command, folder] => {
            if is_same(command.as_bytes(), b"update") {
                Some(folder)
            } else {
                None
            }
        }
        _ => None,
    }
}

/// Prints the line of an update's end.
fn print_end<K: Sink>(alloc: Global, ended: &Result<Summary, UpdateErr>, out: &mut K) -> u8
    ensures prints { PrintsEnd ended.now result (K.now out.old) (K.now out.new) }
    ensures once { (K.now out.new).puts ≡ one_more (K.now out.old).puts }
{
    match fixed_line(ended) {
        Some(line) => print(out, line, updated_status(ended)),
        None => print_written(alloc, ended, out),
    }
}

/// The line of an end that is always the same; that of another end has to be written.
fn fixed_line(ended: &Result<Summary, UpdateErr>) -> Option<&'static [u8]>
    ensures { MatchOption result (TakesMemory ended.now) (λ line. line.now ≡ updated_line ended.now ++ 10 ∷ []) }
{
    match ended {
        Err(UpdateErr::NoMemory) => Some(MEMORY_LINE),
        Err(UpdateErr::DepotFault) => Some(DEPOT_LINE),
        Ok(_)
        | Err(UpdateErr::Project(_))
        | Err(UpdateErr::NoRelease(_))
        | Err(UpdateErr::BadCatalogue(_))
        | Err(UpdateErr::BadRelease { .. })
        | Err(UpdateErr::NameTaken(_))
        | Err(UpdateErr::TooLarge { .. }) => None,
    }
}

/// Writes the line of an end and prints it, or the line that says that memory is wanted.
fn print_written<K: Sink>(alloc: Global, ended: &Result<Summary, UpdateErr>, out: &mut K) -> u8
    requires takes { TakesMemory ended.now }
    ensures prints { PrintsEnd ended.now result (K.now out.old) (K.now out.new) }
    ensures once { (K.now out.new).puts ≡ one_more (K.now out.old).puts }
{
    match updated_line(alloc, ended) {
        Ok(line) => print(out, line.as_bytes(), updated_status(ended)),
        Err(NoMemory) => print_want(out),
    }
}

fn updated_status(ended: &Result<Summary, UpdateErr>) -> u8
    ensures { result ≡ updated_status ended.now }
{
    match ended {
        Ok(_) => 0,
        Err(UpdateErr::NoMemory) => 1,
        Err(UpdateErr::DepotFault) => 3,
        Err(UpdateErr::Project(_)) => 4,
        Err(UpdateErr::NoRelease(_)) => 5,
        Err(UpdateErr::BadRelease { .. }) => 6,
        Err(UpdateErr::BadCatalogue(_)) => 7,
        Err(UpdateErr::NameTaken(_)) => 10,
        Err(UpdateErr::TooLarge { .. }) => 11,
    }
}

fn updated_line(alloc: Global, ended: &Result<Summary, UpdateErr>) -> Result<String, NoMemory>
    ensures { IfOk result (λ line. string_bytes line ≡ updated_line ended.now ++ 10 ∷ []) }
{
    match ended {
        Ok(summary) => summary_line(alloc, summary),
        Err(refusal) => refused_line(alloc, refusal),
    }
}

fn summary_line(alloc: Global, summary: &Summary) -> Result<String, NoMemory>
    ensures { IfOk result (λ line. string_bytes line ≡ summary_line summary.now ++ 10 ∷ []) }
{
    let moved = summary.moved;
    let bundles = summary.bundles;
    let put = summary.put;
    let rows = summary.rows;
    Ok(format!(in alloc; "updated {moved} {bundles} {put} {rows}\n")?)
}

fn refused_line(alloc: Global, refusal: &UpdateErr) -> Result<String, NoMemory>
    ensures { IfOk result (λ line. string_bytes line ≡ refused_line refusal.now ++ 10 ∷ []) }
{
    match refusal {
        UpdateErr::NoMemory => Ok(String::from_str(alloc, "error 1 memory\n")?),
        UpdateErr::DepotFault => Ok(String::from_str(alloc, "error 3 depot\n")?),
        UpdateErr::Project(fault) => Ok(format!(in alloc; "error 4 {fault}\n")?),
        UpdateErr::NoRelease(name) => missing_line(alloc, name),
        UpdateErr::BadRelease { file, why } => wrong_line(alloc, file, why),
        UpdateErr::BadCatalogue(fault) => {
            let number = fault.number();
            Ok(format!(in alloc; "error 7 {number}\n")?)
        }
        UpdateErr::NameTaken(name) => taken_line(alloc, name),
        UpdateErr::TooLarge { limit, count } => {
            Ok(format!(in alloc; "error 11 {limit} {count}\n")?)
        }
    }
}
