// `load`: its words, what stands before its script starts, and its end as a text and a status. How a script is played beside
// workers is decided by addr_live.
ghost use Rattle.std.specs.Prelude.{◌≡◌, ◌<◌, ◌≤◌, ℕ, List, IfOk, MatchOption, MatchResult, Some, length, map};
ghost use Rattle.std.specs.List.{AllByRecursion};
ghost use Rattle.addr_base.specs.Faults.{one_more};
ghost use Rattle.addr_base.specs.Files.{SameStore};
ghost use Rattle.addr_script.specs.Scripts.{IsLimit};
ghost use Rattle.addr_live.specs.Orders.{IsOrder};
ghost use Rattle.addr_live.specs.Whole.{PlaysBeside};
ghost use Rattle.addr_cli.specs.Loading.{AsksToLoad, IsLoadLine, IsWorkers, LoadEnds, LoadsTo, ReadiesFrom, catalogue_name};
ghost use Rattle.addr_cli.specs.Outcome.{CountsFault};
ghost use Rattle.addr_cli.specs.declared.refusal.Refusal.TheVariants.{NoMemory as NoMemoryRefusal};

use crate::files::read_file;
use crate::listing::catalogue_of;
use crate::refusal::Refusal;
use crate::report::{print_usage, report};
use crate::status::Status;
use addr_base::{Depot, NoMemory, Sink, Text};
use addr_fetch::{Fetch, Gate};
use addr_fields::{is_same, number};
use addr_live::{Beside, Prepared, play_beside, read_orders};
use std::alloc::Global;
use std::rt::Clock;
use std::sync::Wait;
use std::thread::Threads;

/// The most workers of one run.
const MOST_WORKERS: u32 = 16;

/// What `load` is asked for.
#[derive(Clone, Copy)]
pub struct LoadRequest<'a> {
    pub folder: &'a Text,
    pub workers: u32,
    pub script: &'a Text,
}

/// The status, and the fetchers as they came back, in their order.
#[derive(Drop)]
pub struct Loaded<F> {
    pub status: Status,
    pub fetchers: Vec<F>,
    pub fetch: F,
}

#[derive(Drop)]
struct Ended<F> {
    ended: Result<Text, Refusal>,
    fetchers: Vec<F>,
    fetch: F,
}

/// Runs the command that plays a script beside workers: `load`. The i-th fetcher serves the i-th worker, and `fetch` the script.
/// The text is one put, and no file changes. It may wait, for workers and for whoever they fetch from.
pub fn run_load<
    R: Threads + Wait + Clock + Sync,
    D: Depot,
    F: Fetch + Send + Drop,
    G: Gate + Sync,
    K: Sink,
>(
    rt: &R,
    alloc: Global,
    words: &[Text],
    depot: &mut D,
    fetchers: Vec<F>,
    fetch: F,
    gate: &G,
    out: &mut K,
) -> Loaded<F>
    requires { (folder : List ℕ) (workers : ℕ) (script : List ℕ) → AsksToLoad words.now folder workers script
        → length fetchers.items ≡ workers }
    ensures outcome { LoadsTo F.gives words.now (D.now depot.old) (D.now depot.new) (K.now out.old) (K.now out.new)
        fetchers.items result.fetchers.items fetch result.fetch result.status.0 }
    ensures one_put { (K.now out.new).puts ≡ one_more (K.now out.old).puts }
    ensures same { SameStore (D.now depot.old) (D.now depot.new) }
{
    let Some(request) = load_request_of(words) else {
        return Loaded {
            status: print_usage(out),
            fetchers,
            fetch,
        };
    };
    let Ended {
        ended,
        fetchers,
        fetch,
    } = load_folder(
        rt,
        alloc,
        request.folder,
        request.script,
        depot,
        fetchers,
        fetch,
        gate,
    );
    Loaded {
        status: report(alloc, ended, out),
        fetchers,
        fetch,
    }
}

fn load_folder<R: Threads + Wait + Clock + Sync, D: Depot, F: Fetch + Send + Drop, G: Gate + Sync>(
    rt: &R,
    alloc: Global,
    folder: &Text,
    script: &Text,
    depot: &mut D,
    fetchers: Vec<F>,
    fetch: F,
    gate: &G,
) -> Ended<F>
    requires { (0 < length fetchers.items) × (length fetchers.items ≤ 16) }
    ensures ends { LoadEnds F.gives (D.now depot.old) (D.now depot.new) folder.now script.now
        fetchers.items result.fetchers.items fetch result.fetch result.ended }
    ensures same { SameStore (D.now depot.old) (D.now depot.new) }
{
    match prepare(alloc, folder, script, depot) {
        Ok(prepared) => play(rt, alloc, prepared, fetchers, fetch, gate),
        Err(refusal) => Ended {
            ended: Err(refusal),
            fetchers,
            fetch,
        },
    }
}

fn play<R: Threads + Wait + Clock + Sync, F: Fetch + Send + Drop, G: Gate + Sync>(
    rt: &R,
    alloc: Global,
    prepared: Prepared,
    fetchers: Vec<F>,
    fetch: F,
    gate: &G,
) -> Ended<F>
    requires workers { (0 < length fetchers.items) × (length fetchers.items ≤ 16) }
    requires limit { IsLimit prepared.limit }
    requires orders { AllByRecursion (IsOrder prepared.locator) prepared.orders.items }
    ensures { MatchResult result.ended (λ text. PlaysBeside F.gives prepared.locator prepared.limit
        (map (λ o. o.command) prepared.orders.items) fetchers.items result.fetchers.items fetch result.fetch text)
        (λ refusal. refusal ≡ NoMemoryRefusal) }
{
    let Prepared {
        locator,
        limit,
        orders,
    } = prepared;
    let Beside {
        text,
        fetchers,
        fetch,
    } = play_beside(rt, alloc, locator, limit, orders, fetchers, fetch, gate);
    Ended {
        ended: told(text),
        fetchers,
        fetch,
    }
}

/// A text that is there, or want of memory.
fn told(text: Option<Text>) -> Result<Text, Refusal>
    ensures { MatchResult result (λ t. text ≡ Some t) (λ refusal. refusal ≡ NoMemoryRefusal) }
{
    match text {
        Some(text) => Ok(text),
        None => Err(Refusal::NoMemory),
    }
}

/// The orders of the script over the folder's catalogue.
fn prepare<D: Depot>(
    alloc: Global,
    folder: &Text,
    script: &Text,
    depot: &mut D,
) -> Result<Prepared, Refusal>
    ensures ready { ReadiesFrom (D.now depot.old) (D.now depot.new) folder.now script.now result }
    ensures cause { CountsFault (D.now depot.old) (D.now depot.new) result }
    ensures limit { IfOk result (λ p. IsLimit p.limit) }
    ensures orders { IfOk result (λ p. AllByRecursion (IsOrder p.locator) p.orders.items) }
    ensures same { SameStore (D.now depot.old) (D.now depot.new) }
{
    let name = catalogue_name(alloc, folder)?;
    let bytes = read_file(alloc, depot, &name)?;
    let catalogue = catalogue_of(alloc, bytes.as_slice())?;
    let bytes = read_file(alloc, depot, script)?;
    let prepared = read_orders(alloc, catalogue.locator, bytes.as_slice())?;
    Ok(prepared)
}

fn catalogue_name(alloc: Global, folder: &Text) -> Result<Text, NoMemory>
    ensures { IfOk result (λ name. name ≡ catalogue_name folder.now) }
{
    let folder = folder.as_str();
    let name = format!(in alloc; "{folder}/remote/catalog_main.json")?;
    Ok(Text::from_string(name))
}

/// What the words ask `load` for, where they are its words.
pub fn load_request_of(words: &[Text]) -> Option<LoadRequest<'_>>
    ensures { MatchOption result (IsLoadLine words.now → ⊥)
        (λ r. AsksToLoad words.now r.folder.now r.workers r.script.now) }
{
    match words {
        [command, folder, workers, script] => {
            if !is_same(command.as_bytes(), b"load") {
                return None;
            }
            let workers = workers_of(workers)?;
            Some(LoadRequest {
                folder,
                workers,
                script,
            })
        }
        _ => None,
    }
}

fn workers_of(word: &Text) -> Option<u32>
    ensures { MatchOption result ((n : ℕ) → IsWorkers word.now n → ⊥) (λ n. IsWorkers word.now n) }
{
    let n = number(word.as_bytes())?;
    if n >= 1 && n <= MOST_WORKERS {
        Some(n)
    } else {
        None
    }
}
