// `serve`: its words, and its end as a status. What is served, and each line of it, is decided by addr_serve.
ghost use Rattle.std.specs.Prelude.{◌≡◌, ◌≤◌, ℕ, MatchOption, length};
ghost use Rattle.addr_base.specs.Files.{SameStore};
ghost use Rattle.addr_cli.specs.Outcome.{Prints};
ghost use Rattle.addr_cli.specs.Serving.{AsksToServe, HasServeCauses, HasServed, IsConnections, IsServeLine, IsServeUsage, ServesTo, served_status};
ghost use Rattle.addr_serve.specs.Loops.{IsAhead};

use crate::report::print_usage;
use crate::status::Status;
use addr_base::{Depot, Sink, Text};
use addr_fields::{is_same, number, short_number};
use addr_serve::{Ended, serve};
use addr_wire::Listen;
use std::alloc::Global;

/// The most connections of one run.
const MOST_CONNECTIONS: u32 = 1_000_000;

/// What `serve` is asked for.
#[derive(Clone, Copy)]
pub struct ServeRequest<'a> {
    folder: &'a Text,
    port: u16,
    connections: u32,
}

/// Runs the command that waits for others, over a listener: `serve`. Each of its lines is one put, made at once, and a
/// fault of the depot is answered to the one who asked. No file changes.
pub fn run_live<D: Depot, L: Listen, K: Sink>(
    alloc: Global,
    words: &[Text],
    depot: &mut D,
    listen: &mut L,
    out: &mut K,
) -> Status
    requires { IsAhead (L.now listen.old).conns }
    ensures outcome { ServesTo words.now (D.now depot.old) (D.now depot.new) (L.now listen.old) (L.now listen.new)
        (K.now out.old) (K.now out.new) result.0 }
    ensures causes { HasServeCauses (L.now listen.old) (L.now listen.new) (K.now out.old) (K.now out.new) result.0 }
    ensures usage { IsServeUsage words.now result.0 }
    ensures same { SameStore (D.now depot.old) (D.now depot.new) }
{
    let Some(request) = serve_request_of(words) else {
        return print_usage(out);
    };
    let ended = serve(
        alloc,
        depot,
        request.folder.as_str(),
        request.port,
        request.connections,
        listen,
        out,
    );
    status_of(ended)
}

fn status_of(ended: Ended) -> Status
    ensures { result.0 ≡ served_status ended }
{
    match ended {
        Ended::Done => Status::DONE,
        Ended::Memory => Status(1),
        Ended::Sink => Status::SINK_FAULT,
        Ended::Net => Status::NET_FAULT,
    }
}

/// What the words ask `serve` for, where they are its words.
fn serve_request_of(words: &[Text]) -> Option<ServeRequest<'_>>
    ensures { MatchOption result (IsServeLine words.now → ⊥)
        (λ r. AsksToServe words.now r.folder.now r.port r.connections) }
{
    match words {
        [command, folder, port, connections] => {
            if !is_same(command.as_bytes(), b"serve") {
                return None;
            }
            let port = short_number(port.as_bytes())?;
            let connections = connections_of(connections)?;
            Some(ServeRequest {
                folder,
                port,
                connections,
            })
        }
        _ => None,
    }
}

fn connections_of(word: &Text) -> Option<u32>
    ensures { MatchOption result ((n : ℕ) → IsConnections word.now n → ⊥) (λ n. IsConnections word.now n) }
{
    let n = number(word.as_bytes())?;
    if n >= 1 && n <= MOST_CONNECTIONS {
        Some(n)
    } else {
        None
    }
}
