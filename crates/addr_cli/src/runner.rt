// A command line from its words to its status. The rows are read and tested before the script.
ghost use Rattle.std.specs.Prelude.{◌≡◌, Err};
ghost use Rattle.addr_base.specs.Faults.{one_more};
ghost use Rattle.addr_base.specs.Files.{SameStore};
ghost use Rattle.addr_cli.specs.Outcome.{CommandEnds, CountsFault, EndsWith, HasCauses, IsComplete, IsUsage, RunsTo};
ghost use Rattle.addr_cli.specs.Words.{IsCommandLine, simulate};
ghost use Rattle.addr_cli.specs.declared.refusal.Refusal.TheVariants.{Usage};

use crate::command::{Request, request_of};
use crate::files::read_file;
use crate::inspecting::inspect_file;
use crate::listing::{read_rows_file, rows_text};
use crate::planning::plan_folder;
use crate::refusal::Refusal;
use crate::report::report;
use crate::status::Status;
use addr_base::{Depot, Sink, Text};
use addr_simulate::simulate;
use std::alloc::Global;

/// Runs the command that the words are, over the depot's files, and prints to the sink by one put. Every file stays.
pub fn run<D: Depot, K: Sink>(alloc: Global, words: &[Text], depot: &mut D, out: &mut K) -> Status
    ensures outcome { RunsTo words.now (D.now depot.old) (D.now depot.new) (K.now out.old) (K.now out.new) result.0 }
    ensures causes { HasCauses (D.now depot.old) (D.now depot.new) (K.now out.old) (K.now out.new) result.0 }
    ensures usage { IsUsage words.now result.0 }
    ensures complete { IsComplete words.now (D.now depot.old) (D.now depot.new) (K.now out.old)
        (K.now out.new) result.0 }
    ensures one_put { (K.now out.new).puts ≡ one_more (K.now out.old).puts }
    ensures same { SameStore (D.now depot.old) (D.now depot.new) }
{
    let ended = command_text(alloc, words, depot);
    report(alloc, ended, out)
}

fn command_text<D: Depot>(alloc: Global, words: &[Text], depot: &mut D) -> Result<Text, Refusal>
    ensures ends { EndsWith words.now (D.now depot.old) (D.now depot.new) result }
    ensures usage { (IsCommandLine words.now → ⊥) → result ≡ Err Usage }
    ensures same { SameStore (D.now depot.old) (D.now depot.new) }
{
    match request_of(words) {
        Some(Request::Simulate { rows, script }) => simulate_files(alloc, rows, script, depot),
        Some(Request::ListRows { file }) => rows_text(alloc, file, depot),
        Some(Request::Inspect { file }) => inspect_file(alloc, file, depot),
        Some(Request::Plan { folder }) => plan_folder(alloc, folder, depot),
        None => Err(Refusal::Usage),
    }
}

fn simulate_files<D: Depot>(
    alloc: Global,
    rows: &Text,
    script: &Text,
    depot: &mut D,
) -> Result<Text, Refusal>
    ensures ends { CommandEnds (simulate rows.now script.now) (D.now depot.old) (D.now depot.new) result }
    ensures cause { CountsFault (D.now depot.old) (D.now depot.new) result }
    ensures same { SameStore (D.now depot.old) (D.now depot.new) }
{
    let locator = read_rows_file(alloc, rows, depot)?;
    let bytes = read_file(alloc, depot, script)?;
    let text = simulate(alloc, locator, bytes.as_slice())?;
    Ok(text)
}
