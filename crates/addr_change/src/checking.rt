// `check`: its words, and its end as a text and a status. What an update would move is decided by addr_check.
ghost use Rattle.std.specs.Prelude.{◌≡◌, ◌++◌, ◌∷◌, [], IfOk, MatchOption, string_bytes};
ghost use Rattle.addr_base.specs.Faults.{one_more};
ghost use Rattle.addr_base.specs.Files.{SameStore};
ghost use Rattle.addr_check.specs.declared.error.CheckErr.TheVariants.{BadRelease, NoRelease};
ghost use Rattle.addr_change.specs.Checking.{AsksToCheck, ChecksTo, IsCheckLine, PrintsEnd, TakesMemory, checked_status, checked_text, refused_line};
ghost use Rattle.addr_change.specs.Printing.{HasCauses};

use crate::check_text::moves_text;
use crate::printing::{DEPOT_LINE, MEMORY_LINE, print, print_usage, print_want};
use addr_base::{Depot, Items, NoMemory, Sink, Text, token};
use addr_check::{CheckErr, check};
use addr_fields::is_same;
use addr_update::{Move, NotIntact};
use std::alloc::Global;

/// Runs the command that prints which entries of a folder an update would move, and answers its exit status: a line for each of them
/// and one with their number, by one put. No file changes.
pub fn run_check<D: Depot, K: Sink>(alloc: Global, words: &[Text], depot: &mut D, out: &mut K) -> u8
    ensures outcome { ChecksTo words.now (D.now depot.old) (D.now depot.new) (K.now out.old) (K.now out.new) result }
    ensures causes { HasCauses (D.now depot.old) (D.now depot.new) (K.now out.old) (K.now out.new) result }
    ensures one_put { (K.now out.new).puts ≡ one_more (K.now out.old).puts }
    ensures same { SameStore (D.now depot.old) (D.now depot.new) }
{
    let Some(folder) = folder_of(words) else {
        return print_usage(out);
    };
    let ended = check(alloc, depot, folder.as_str());
    print_end(alloc, &ended, out)
}

/// The folder that the words ask to check, where they are the words of `check`.
fn folder_of(words: &[Text]) -> Option<&Text>
    ensures { MatchOption result (IsCheckLine words.now → ⊥) (λ folder. AsksToCheck words.now folder.now) }
{
    match words {
        [command, folder] => {
            if is_same(command.as_bytes(), b"check") {
                Some(folder)
            } else {
                None
            }
        }
        _ => None,
    }
}

/// Prints the text of an end.
fn print_end<K: Sink>(alloc: Global, ended: &Result<Items<Move>, CheckErr>, out: &mut K) -> u8
    ensures prints { PrintsEnd ended.now result (K.now out.old) (K.now out.new) }
    ensures once { (K.now out.new).puts ≡ one_more (K.now out.old).puts }
{
    match fixed_line(ended) {
        Some(line) => print(out, line, checked_status(ended)),
        None => print_written(alloc, ended, out),
    }
}

/// The line of an end that is always the same; the text of another end has to be written.
fn fixed_line(ended: &Result<Items<Move>, CheckErr>) -> Option<&'static [u8]>
    ensures { MatchOption result (TakesMemory ended.now) (λ line. line.now ≡ checked_text ended.now) }
{
    match ended {
        Err(CheckErr::NoMemory) => Some(MEMORY_LINE),
        Err(CheckErr::DepotFault) => Some(DEPOT_LINE),
        Ok(_)
        | Err(CheckErr::Project(_))
        | Err(CheckErr::NoRelease(_))
        | Err(CheckErr::BadCatalogue(_))
        | Err(CheckErr::BadRelease { .. })
        | Err(CheckErr::TooLarge { .. }) => None,
    }
}

/// Writes the text of an end and prints it, or the line that says that memory is wanted.
fn print_written<K: Sink>(alloc: Global, ended: &Result<Items<Move>, CheckErr>, out: &mut K) -> u8
    requires takes { TakesMemory ended.now }
    ensures prints { PrintsEnd ended.now result (K.now out.old) (K.now out.new) }
    ensures once { (K.now out.new).puts ≡ one_more (K.now out.old).puts }
{
    match checked_text(alloc, ended) {
        Ok(text) => print(out, text.as_bytes(), checked_status(ended)),
        Err(NoMemory) => print_want(out),
    }
}

fn checked_status(ended: &Result<Items<Move>, CheckErr>) -> u8
    ensures { result ≡ checked_status ended.now }
{
    match ended {
        Ok(_) => 0,
        Err(CheckErr::NoMemory) => 1,
        Err(CheckErr::DepotFault) => 3,
        Err(CheckErr::Project(_)) => 4,
        Err(CheckErr::NoRelease(_)) => 5,
        Err(CheckErr::BadRelease { .. }) => 6,
        Err(CheckErr::BadCatalogue(_)) => 7,
        Err(CheckErr::TooLarge { .. }) => 11,
    }
}

fn checked_text(alloc: Global, ended: &Result<Items<Move>, CheckErr>) -> Result<String, NoMemory>
    ensures { IfOk result (λ text. string_bytes text ≡ checked_text ended.now) }
{
    match ended {
        Ok(moves) => moves_text(alloc, moves.as_slice()),
        Err(refusal) => refused_line(alloc, refusal),
    }
}

fn refused_line(alloc: Global, refusal: &CheckErr) -> Result<String, NoMemory>
    ensures { IfOk result (λ line. string_bytes line ≡ refused_line refusal.now ++ 10 ∷ []) }
{
    match refusal {
        CheckErr::NoMemory => Ok(String::from_str(alloc, "error 1 memory\n")?),
        CheckErr::DepotFault => Ok(String::from_str(alloc, "error 3 depot\n")?),
        CheckErr::Project(fault) => Ok(format!(in alloc; "error 4 {fault}\n")?),
        CheckErr::NoRelease(name) => missing_line(alloc, name),
        CheckErr::BadRelease { file, why } => wrong_line(alloc, file, why),
        CheckErr::BadCatalogue(fault) => {
            let number = fault.number();
            Ok(format!(in alloc; "error 7 {number}\n")?)
        }
        CheckErr::TooLarge { limit, count } => Ok(format!(in alloc; "error 11 {limit} {count}\n")?),
    }
}

pub(crate) fn missing_line(alloc: Global, name: &Text) -> Result<String, NoMemory>
    ensures { IfOk result (λ line. string_bytes line ≡ refused_line (NoRelease name.now) ++ 10 ∷ []) }
{
    let token = token(alloc, name.as_str())?;
    let name = token.as_str();
    Ok(format!(in alloc; "error 5 {name}\n")?)
}

/// The line of a file that isn't as the state says.
pub(crate) fn wrong_line(alloc: Global, file: &Text, why: &NotIntact) -> Result<String, NoMemory>
    ensures { IfOk result (λ line. string_bytes line ≡ refused_line (BadRelease file.now why.now) ++ 10 ∷ []) }
{
    let token = token(alloc, file.as_str())?;
    let name = token.as_str();
    match *why {
        NotIntact::Missing => Ok(format!(in alloc; "error 6 {name} missing\n")?),
        NotIntact::State(number) => Ok(format!(in alloc; "error 6 {name} state {number}\n")?),
        NotIntact::Size { said, found } => {
            Ok(format!(in alloc; "error 6 {name} size {said} {found}\n")?)
        }
        NotIntact::Digest { said, found } => {
            Ok(format!(in alloc; "error 6 {name} digest {said} {found}\n")?)
        }
        NotIntact::Fs(fault) => {
            let number = fault.number().unwrap_or(0);
            Ok(format!(in alloc; "error 6 {name} unityfs {number}\n")?)
        }
        NotIntact::Cab(fault) => {
            let number = fault.number().unwrap_or(0);
            Ok(format!(in alloc; "error 6 {name} cab {number}\n")?)
        }
        NotIntact::Objects => Ok(format!(in alloc; "error 6 {name} objects\n")?),
    }
}
