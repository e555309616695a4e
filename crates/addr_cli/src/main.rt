//! The program: words, statuses, and the commands over the crates below.
//!
//! Promise: `run` ends as `specs/Outcome.antt` says of its words, the depot's files and the counts of faults; with status 0
//! it prints exactly the text of its command; `run_live` ends as `specs/Serving.antt` says. `main` calls `run_live` where the
//! first word is `serve`, `run_build`, `run_check`, `run_update` and `run_resolve` of addr_change where it is `build`, `check`,
//! `update` or `resolve`, `run_analyze` and `run_isolate` of addr_show where it is `analyze` or `isolate`, else `run`, over the
//! working folder, a listener on the loopback and standard output. Left out: every other command.
//! Start: `specs/Words.antt`, `specs/Outcome.antt`, `src/runner.rt`.
#![tactic(auto)]

ghost use Rattle.std.specs.Prelude.{◌≡◌, ℕ, List, IfOk, length};
ghost use Rattle.addr_cli.specs.Loading.{AsksToLoad};

mod command;
mod files;
mod inspecting;
mod listing;
mod loading;
mod planning;
mod refusal;
mod report;
mod runner;
mod serving;
mod status;
#[cfg(test)]
mod tests;

use addr_base::{FolderDepot, NoMemory, OutSink, Sink, Text};
use addr_change::{run_build, run_check, run_resolve, run_update};
use addr_fetch::{FolderFetch, OpenGate};
use addr_fields::is_same;
use addr_http::HttpFetch;
use addr_live::SchemeFetch;
use addr_net::{TcpConnect, TcpListen};
use addr_show::{run_analyze, run_isolate};
use loading::{load_request_of, run_load};
use refusal::Refusal;
use report::report;
use runner::run;
use serving::run_live;
use status::Status;
use std::io::ErrorKind;
use std::process::ExitCode;
use std::rt::Clock;
use std::sync::Wait;
use std::thread::Threads;

fn main(rt: HostRuntime) -> ExitCode {
    let mut out = OutSink::new(&rt);
    let status = match words(&rt) {
        Ok(words) => run_words(&rt, &rt, words.as_slice(), &mut out),
        Err(refusal) => report(rt.alloc(), Err(refusal), &mut out),
    };
    ExitCode::from(status.0)
}

fn run_words<R: Threads + Wait + Clock + Sync, K: Sink>(
    rt: &HostRuntime,
    threads: &R,
    words: &[Text],
    out: &mut K,
) -> Status {
    let mut depot = FolderDepot::new(rt);
    if is_first(words, b"serve") {
        run_live(rt.alloc(), words, &mut depot, &mut TcpListen::new(rt), out)
    } else if is_first(words, b"load") {
        run_beside(rt, threads, words, &mut depot, out)
    } else if is_first(words, b"build") {
        Status(run_build(rt.alloc(), words, &mut depot, out))
    } else if is_first(words, b"check") {
        Status(run_check(rt.alloc(), words, &mut depot, out))
    } else if is_first(words, b"update") {
        Status(run_update(rt.alloc(), words, &mut depot, out))
    } else if is_first(words, b"resolve") {
        Status(run_resolve(rt.alloc(), words, &mut depot, out))
    } else if is_first(words, b"analyze") {
        Status(run_analyze(rt.alloc(), words, &mut depot, out))
    } else if is_first(words, b"isolate") {
        Status(run_isolate(rt.alloc(), words, &mut depot, out))
    } else {
        run(rt.alloc(), words, &mut depot, out)
    }
}

/// Runs `load` with a fetcher for each worker, and one for the script: ids that begin with `http://` over HTTP, and others as
/// paths in the folder.
fn run_beside<R: Threads + Wait + Clock + Sync, K: Sink>(
    rt: &HostRuntime,
    threads: &R,
    words: &[Text],
    depot: &mut FolderDepot<'_, HostRuntime>,
    out: &mut K,
) -> Status {
    match fetchers(rt, words) {
        Ok((fetchers, fetch)) => {
            run_load(
                threads,
                rt.alloc(),
                words,
                depot,
                fetchers,
                fetch,
                &OpenGate,
                out,
            )
            .status
        }
        Err(refusal) => report(rt.alloc(), Err(refusal), out),
    }
}

/// A fetcher of one thread.
type Fetcher<'a> = SchemeFetch<
    FolderFetch<'a, HostRuntime>,
    HttpFetch<TcpConnect<'a, HostRuntime>>,
>;

/// So many fetchers as the words ask for workers, and one more.
fn fetchers<'a>(
    rt: &'a HostRuntime,
    words: &[Text],
) -> Result<(Vec<Fetcher<'a>>, Fetcher<'a>), Refusal>
    ensures { IfOk result (λ f. (folder : List ℕ) (workers : ℕ) (script : List ℕ) → AsksToLoad words.now folder workers script
        → length f.0.items ≡ workers) }
{
    let Some(request) = load_request_of(words) else {
        return Err(Refusal::Usage);
    };
    let fetchers = fetchers_below(rt, request.folder, request.workers)?;
    let fetch = fetcher(rt, request.folder)?;
    Ok((fetchers, fetch))
}

fn fetchers_below<'a>(
    rt: &'a HostRuntime,
    folder: &Text,
    count: u32,
) -> Result<Vec<Fetcher<'a>>, NoMemory>
    ensures { IfOk result (λ fetchers. length fetchers.items ≡ count) }
{
    let mut fetchers = Vec::new(rt.alloc());
    for _ in 0..count {
        let fetch = fetcher(rt, folder)?;
        fetchers.push(fetch)?;
    }
    Ok(fetchers)
}

fn fetcher<'a>(rt: &'a HostRuntime, folder: &Text) -> Result<Fetcher<'a>, NoMemory> {
    let folder = Text::copy_of(rt.alloc(), folder.as_str())?;
    let files = FolderFetch::new(rt, folder);
    let net = HttpFetch::new(TcpConnect::new(rt));
    Ok(SchemeFetch::new(files, net))
}

/// Whether the first word is this one.
fn is_first(words: &[Text], command: &[u8]) -> bool {
    match words {
        [first, ..] => is_same(first.as_bytes(), command),
        [] => false,
    }
}

/// The words of the command line without the program's name. One that isn't UTF-8 makes it a faulty one.
fn words(rt: &HostRuntime) -> Result<Vec<Text>, Refusal> {
    let mut words = Vec::new(rt.alloc());
    match std::env::args(rt) {
        Ok(args) => {
            for word in args.skip(1) {
                add_word(&mut words, word)?;
            }
            Ok(words)
        }
        Err(e) if e.kind() == ErrorKind::OutOfMemory => Err(Refusal::NoMemory),
        Err(_) => Err(Refusal::Usage),
    }
}

fn add_word(words: &mut Vec<Text>, word: String) -> Result<(), NoMemory> {
    words.push(Text::from_string(word))?;
    Ok(())
}
