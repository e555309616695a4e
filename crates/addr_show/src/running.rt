// `analyze`: its words, and its end as a text and a status.
ghost use Rattle.std.specs.Prelude.{◌≡◌, ◌++◌, ◌∷◌, [], IfOk, MatchOption, Err, string_bytes};
ghost use Rattle.addr_base.specs.Faults.{one_more};
ghost use Rattle.addr_base.specs.Files.{SameStore};
ghost use Rattle.addr_show.specs.Analyzing.{AnalyzesTo, AsksToAnalyze, HasCauses, IsAnalyzeLine, IsComplete, PrintsEnd, TakesMemory, refused_line, refused_status};

use crate::analyzing::analyze;
use crate::error::AnalyzeErr;
use crate::printing::{print, print_depot, print_usage, print_want};
use addr_base::{Depot, NoMemory, Sink, Text};
use addr_fields::is_same;
use std::alloc::Global;

/// Runs the command that shows the duplicates of a project folder, and answers its exit status. What it prints is put at once.
pub fn run_analyze<D: Depot, K: Sink>(
    alloc: Global,
    words: &[Text],
    depot: &mut D,
    out: &mut K,
) -> u8
    ensures outcome { AnalyzesTo words.now (D.now depot.old) (D.now depot.new) (K.now out.old) (K.now out.new) result }
    ensures causes { HasCauses (D.now depot.old) (D.now depot.new) (K.now out.old) (K.now out.new) result }
    ensures complete { IsComplete words.now (D.now depot.old) (D.now depot.new) (K.now out.old)
        (K.now out.new) result }
    ensures one_put { (K.now out.new).puts ≡ one_more (K.now out.old).puts }
    ensures same { SameStore (D.now depot.old) (D.now depot.new) }
{
    let Some(folder) = folder_of(words) else {
        return print_usage(out);
    };
    let ended = analyze(alloc, depot, folder.as_str());
    print_end(alloc, &ended, out)
}

/// The folder that the words ask to analyze, where they are the words of `analyze`.
fn folder_of(words: &[Text]) -> Option<&Text>
    ensures { MatchOption result (IsAnalyzeLine words.now → ⊥) (λ folder. AsksToAnalyze words.now folder.now) }
{
    match words {
        [command, folder] => {
            if is_same(command.as_bytes(), b"analyze") {
                Some(folder)
            } else {
                None
            }
        }
        _ => None,
    }
}

/// Prints the text of an end, or the line of its refusal.
fn print_end<K: Sink>(alloc: Global, ended: &Result<Text, AnalyzeErr>, out: &mut K) -> u8
    ensures prints { PrintsEnd ended.now result (K.now out.old) (K.now out.new) }
    ensures once { (K.now out.new).puts ≡ one_more (K.now out.old).puts }
{
    match ended {
        Ok(text) => print(out, text.as_bytes(), 0),
        Err(refusal) => print_refusal(alloc, refusal, out),
    }
}

/// Prints the line of a refusal.
pub(crate) fn print_refusal<K: Sink>(alloc: Global, refusal: &AnalyzeErr, out: &mut K) -> u8
    ensures prints { PrintsEnd (Err refusal.now) result (K.now out.old) (K.now out.new) }
    ensures once { (K.now out.new).puts ≡ one_more (K.now out.old).puts }
{
    match refusal {
        AnalyzeErr::NoMemory => print_want(out),
        AnalyzeErr::DepotFault => print_depot(out),
        AnalyzeErr::Project(_) | AnalyzeErr::TooLarge { .. } => print_written(alloc, refusal, out),
    }
}

/// Writes the line of a refusal and prints it, or the line that says that memory is wanted.
fn print_written<K: Sink>(alloc: Global, refusal: &AnalyzeErr, out: &mut K) -> u8
    requires takes { TakesMemory (Err refusal.now) }
    ensures prints { PrintsEnd (Err refusal.now) result (K.now out.old) (K.now out.new) }
    ensures once { (K.now out.new).puts ≡ one_more (K.now out.old).puts }
{
    match refused_line(alloc, refusal) {
        Ok(line) => print(out, line.as_bytes(), refused_status(refusal)),
        Err(NoMemory) => print_want(out),
    }
}

fn refused_status(refusal: &AnalyzeErr) -> u8
    ensures { result ≡ refused_status refusal.now }
{
    match refusal {
        AnalyzeErr::NoMemory => 1,
        AnalyzeErr::DepotFault => 3,
        AnalyzeErr::Project(_) => 4,
        AnalyzeErr::TooLarge { .. } => 11,
    }
}

fn refused_line(alloc: Global, refusal: &AnalyzeErr) -> Result<String, NoMemory>
    ensures { IfOk result (λ line. string_bytes line ≡ refused_line refusal.now ++ 10 ∷ []) }
{
    match refusal {
        AnalyzeErr::NoMemory => Ok(String::from_str(alloc, "error 1 memory\n")?),
        AnalyzeErr::DepotFault => Ok(String::from_str(alloc, "error 3 depot\n")?),
        AnalyzeErr::Project(fault) => Ok(format!(in alloc; "error 4 {fault}\n")?),
        AnalyzeErr::TooLarge { limit, count } => Ok(format!(in alloc;
            "error 11 {limit} {count}\n"
        )?),
    }
}
