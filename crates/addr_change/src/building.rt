// `build`: its words, and its end as a line and a status. What is built and put is decided by addr_build.
ghost use Rattle.std.specs.Prelude.{◌≡◌, ◌++◌, ◌∷◌, [], IfOk, MatchOption, string_bytes};
ghost use Rattle.addr_base.specs.Faults.{one_more};
ghost use Rattle.addr_build.specs.declared.error.BuildErr.TheVariants.{NameTaken};
ghost use Rattle.addr_change.specs.Building.{AsksToBuild, BuildsTo, IsBuildLine, PrintsEnd, TakesMemory, built_line, built_status, refused_line, summary_line};
ghost use Rattle.addr_change.specs.Printing.{HasCauses};

use crate::printing::{DEPOT_LINE, MEMORY_LINE, print, print_usage, print_want};
use addr_base::{Depot, NoMemory, Sink, Text, token};
use addr_build::{BuildErr, Summary, build};
use addr_fields::is_same;
use std::alloc::Global;

/// Runs the command that builds the release of a project folder, and answers its exit status. What it prints is one line, by
/// one put. Before the first file is put all limits are measured; what stands in the folder after each refusal is
/// `Answers` of addr_build.
pub fn run_build<D: Depot, K: Sink>(alloc: Global, words: &[Text], depot: &mut D, out: &mut K) -> u8
    ensures outcome { BuildsTo words.now (D.now depot.old) (D.now depot.new) (K.now out.old) (K.now out.new) result }
    ensures causes { HasCauses (D.now depot.old) (D.now depot.new) (K.now out.old) (K.now out.new) result }
    ensures one_put { (K.now out.new).puts ≡ one_more (K.now out.old).puts }
{
    let Some(folder) = folder_of(words) else {
        return print_usage(out);
    };
    let ended = build(alloc, depot, folder.as_str());
    print_end(alloc, &ended, out)
}

/// The folder that the words ask to build, where they are the words of `build`.
fn folder_of(words: &[Text]) -> Option<&Text>
    ensures { MatchOption result (IsBuildLine words.now → ⊥) (λ folder. AsksToBuild words.now folder.now) }
{
    match words {
        [command, folder] => {
            if is_same(command.as_bytes(), b"build") {
                Some(folder)
            } else {
                None
            }
        }
        _ => None,
    }
}

/// Prints the line of a build's end.
fn print_end<K: Sink>(alloc: Global, ended: &Result<Summary, BuildErr>, out: &mut K) -> u8
    ensures prints { PrintsEnd ended.now result (K.now out.old) (K.now out.new) }
    ensures once { (K.now out.new).puts ≡ one_more (K.now out.old).puts }
{
    match fixed_line(ended) {
        Some(line) => print(out, line, built_status(ended)),
        None => print_written(alloc, ended, out),
    }
}

/// The line of an end that is always the same; that of another end has to be written.
fn fixed_line(ended: &Result<Summary, BuildErr>) -> Option<&'static [u8]>
    ensures { MatchOption result (TakesMemory ended.now) (λ line. line.now ≡ built_line ended.now ++ 10 ∷ []) }
{
    match ended {
        Err(BuildErr::NoMemory) => Some(MEMORY_LINE),
        Err(BuildErr::DepotFault) => Some(DEPOT_LINE),
        Ok(_)
        | Err(BuildErr::Project(_))
        | Err(BuildErr::NameTaken(_))
        | Err(BuildErr::TooLarge { .. }) => None,
    }
}

/// Writes the line of an end and prints it, or the line that says that memory is wanted.
fn print_written<K: Sink>(alloc: Global, ended: &Result<Summary, BuildErr>, out: &mut K) -> u8
    requires takes { TakesMemory ended.now }
    ensures prints { PrintsEnd ended.now result (K.now out.old) (K.now out.new) }
    ensures once { (K.now out.new).puts ≡ one_more (K.now out.old).puts }
{
    match built_line(alloc, ended) {
        Ok(line) => print(out, line.as_bytes(), built_status(ended)),
        Err(NoMemory) => print_want(out),
    }
}

fn built_status(ended: &Result<Summary, BuildErr>) -> u8
    ensures { result ≡ built_status ended.now }
{
    match ended {
        Ok(_) => 0,
        Err(BuildErr::NoMemory) => 1,
        Err(BuildErr::DepotFault) => 3,
        Err(BuildErr::Project(_)) => 4,
        Err(BuildErr::NameTaken(_)) => 10,
        Err(BuildErr::TooLarge { .. }) => 11,
    }
}

fn built_line(alloc: Global, ended: &Result<Summary, BuildErr>) -> Result<String, NoMemory>
    ensures { IfOk result (λ line. string_bytes line ≡ built_line ended.now ++ 10 ∷ []) }
{
    match ended {
        Ok(summary) => summary_line(alloc, summary),
        Err(refusal) => refused_line(alloc, refusal),
    }
}

fn summary_line(alloc: Global, summary: &Summary) -> Result<String, NoMemory>
    ensures { IfOk result (λ line. string_bytes line ≡ summary_line summary.now ++ 10 ∷ []) }
{
    let bundles = summary.bundles;
    let put = summary.put;
    let rows = summary.rows;
    Ok(format!(in alloc; "built {bundles} {put} {rows}\n")?)
}

fn refused_line(alloc: Global, refusal: &BuildErr) -> Result<String, NoMemory>
    ensures { IfOk result (λ line. string_bytes line ≡ refused_line refusal.now ++ 10 ∷ []) }
{
    match refusal {
        BuildErr::NoMemory => Ok(String::from_str(alloc, "error 1 memory\n")?),
        BuildErr::DepotFault => Ok(String::from_str(alloc, "error 3 depot\n")?),
        BuildErr::Project(fault) => Ok(format!(in alloc; "error 4 {fault}\n")?),
        BuildErr::NameTaken(name) => taken_line(alloc, name),
        BuildErr::TooLarge { limit, count } => Ok(format!(in alloc; "error 11 {limit} {count}\n")?),
    }
}

pub(crate) fn taken_line(alloc: Global, name: &Text) -> Result<String, NoMemory>
    ensures { IfOk result (λ line. string_bytes line ≡ refused_line (NameTaken name.now) ++ 10 ∷ []) }
{
    let token = token(alloc, name.as_str())?;
    let name = token.as_str();
    Ok(format!(in alloc; "error 10 {name}\n")?)
}
