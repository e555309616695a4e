// Serving connections one after the other. A connection is finished before its line is written, whatever becomes of it.
ghost use Rattle.std.specs.Prelude.{◌≡◌, ◌≢◌, IfSome};
ghost use Rattle.addr_base.specs.Files.{SameStore};
ghost use Rattle.addr_serve.specs.Lines.{served_line};
ghost use Rattle.addr_serve.specs.Loops.{IsAhead, LastCause, ListenCause, NetCause, PrintsLast, PrintsLine, PutCause, PutsLast, ServesAll, SinkCause};
ghost use Rattle.addr_serve.specs.Serving.{Serves};

use crate::lines::{port_line, served_line};
use addr_base::{Depot, Failed, NoMemory, Sink};
use addr_http::{Served, answer};
use addr_wire::Listen;
use std::alloc::Global;

/// How serving ended.
#[derive(Clone, Copy, Debug, PartialEq, Eq)]
pub enum Ended {
    /// The asked number of connections was finished.
    Done,
    /// Memory for a line was refused.
    Memory,
    /// The listener failed.
    Net,
    /// The sink failed.
    Sink,
}

/// Serves so many connections at a port, with the files below `<folder>/remote`, and writes the line `serving` and one for
/// each connection; where the listener fails, `error 14 net` stands behind them.
pub fn serve<D: Depot, L: Listen, K: Sink>(
    alloc: Global,
    depot: &mut D,
    folder: &str,
    port: u16,
    connections: u32,
    listen: &mut L,
    out: &mut K,
) -> Ended
    requires { IsAhead (L.now listen.old).conns }
    ensures serves { Serves folder.now (D.now depot.old).files connections (D.now depot.old).faults
        (D.now depot.new).faults result
        (L.now listen.old) (L.now listen.new) (K.now out.old).written (K.now out.new).written }
    ensures asked { port ≢ 0 → result ≡ Ended.Done → IfSome (L.now listen.new).port (λ bound. bound ≡ port) }
    ensures net { ListenCause result (L.now listen.old).faults (L.now listen.new).faults }
    ensures sink { SinkCause result (K.now out.old).faults (K.now out.new).faults }
    ensures same { SameStore (D.now depot.old) (D.now depot.new) }
{
    match listen.open(port) {
        Ok(bound) => serve_from(alloc, depot, folder, bound, connections, listen, out),
        Err(Failed) => last_line(out, Ended::Net),
    }
}

/// Serves at a port that was bound.
fn serve_from<D: Depot, L: Listen, K: Sink>(
    alloc: Global,
    depot: &mut D,
    folder: &str,
    port: u16,
    connections: u32,
    listen: &mut L,
    out: &mut K,
) -> Ended
    requires ahead { IsAhead (L.now listen.old).conns }
    requires bound { IfSome (L.now listen.old).port (λ told. told ≡ port) }
    ensures serves { Serves folder.now (D.now depot.old).files connections (D.now depot.old).faults
        (D.now depot.new).faults result
        (L.now listen.old) (L.now listen.new) (K.now out.old).written (K.now out.new).written }
    ensures port { (L.now listen.new).port ≡ (L.now listen.old).port }
    ensures net { ListenCause result (L.now listen.old).faults (L.now listen.new).faults }
    ensures sink { SinkCause result (K.now out.old).faults (K.now out.new).faults }
    ensures same { SameStore (D.now depot.old) (D.now depot.new) }
{
    let Ok(line) = port_line(alloc, port) else {
        return last_line(out, Ended::Memory);
    };
    match out.put(line.as_bytes()) {
        Ok(()) => {
            let ended = serve_all(alloc, depot, folder, connections, listen, out);
            last_line(out, ended)
        }
        Err(Failed) => Ended::Sink,
    }
}

/// Serves so many connections, and writes a line for each.
fn serve_all<D: Depot, L: Listen, K: Sink>(
    alloc: Global,
    depot: &mut D,
    folder: &str,
    connections: u32,
    listen: &mut L,
    out: &mut K,
) -> Ended
    requires { IsAhead (L.now listen.old).conns }
    ensures serves { ServesAll folder.now (D.now depot.old).files connections (D.now depot.old).faults
        (D.now depot.new).faults result
        (L.now listen.old) (L.now listen.new) (K.now out.old).written (K.now out.new).written }
    ensures net { NetCause result (L.now listen.old).faults (L.now listen.new).faults }
    ensures sink { SinkCause result (K.now out.old).faults (K.now out.new).faults }
    ensures same { SameStore (D.now depot.old) (D.now depot.new) }
{
    for turn in 0..connections {
        match serve_next(alloc, depot, folder, listen, out) {
            Ended::Done => {}
            Ended::Memory => return Ended::Memory,
            Ended::Net => return Ended::Net,
            Ended::Sink => return Ended::Sink,
        }
    }
    Ended::Done
}

/// Accepts a connection, answers it, finishes it, and writes its line.
fn serve_next<D: Depot, L: Listen, K: Sink>(
    alloc: Global,
    depot: &mut D,
    folder: &str,
    listen: &mut L,
    out: &mut K,
) -> Ended
    requires { IsAhead (L.now listen.old).conns }
    ensures serves { ServesAll folder.now (D.now depot.old).files 1 (D.now depot.old).faults
        (D.now depot.new).faults result
        (L.now listen.old) (L.now listen.new) (K.now out.old).written (K.now out.new).written }
    ensures net { NetCause result (L.now listen.old).faults (L.now listen.new).faults }
    ensures sink { SinkCause result (K.now out.old).faults (K.now out.new).faults }
    ensures same { SameStore (D.now depot.old) (D.now depot.new) }
{
    match listen.accept() {
        Ok(conn) => {
            let mut conn = conn;
            let served = answer(alloc, depot, folder, &mut conn);
            listen.finish(conn);
            write_line(alloc, out, served)
        }
        Err(Failed) => Ended::Net,
    }
}

fn write_line<K: Sink>(alloc: Global, out: &mut K, served: Served) -> Ended
    ensures prints { PrintsLine (served_line served) result (K.now out.old).written (K.now out.new).written }
    ensures sink { SinkCause result (K.now out.old).faults (K.now out.new).faults }
{
    match served_line(alloc, served) {
        Ok(line) => match out.put(line.as_bytes()) {
            Ok(()) => Ended::Done,
            Err(Failed) => Ended::Sink,
        },
        Err(NoMemory) => Ended::Memory,
    }
}

/// Writes the line of a fault or of want of memory, where it ended so.
fn last_line<K: Sink>(out: &mut K, ended: Ended) -> Ended
    ensures prints { PrintsLast ended result (K.now out.old).written (K.now out.new).written }
    ensures sink { LastCause ended result (K.now out.old).faults (K.now out.new).faults }
{
    match ended {
        Ended::Done => Ended::Done,
        Ended::Memory => put_last(out, b"error 1 memory\n", Ended::Memory),
        Ended::Net => put_last(out, b"error 14 net\n", Ended::Net),
        Ended::Sink => Ended::Sink,
    }
}

fn put_last<K: Sink>(out: &mut K, line: &[u8], ended: Ended) -> Ended
    ensures prints { PutsLast line.now ended result (K.now out.old).written (K.now out.new).written }
    ensures sink { PutCause ended result (K.now out.old).faults (K.now out.new).faults }
{
    match out.put(line) {
        Ok(()) => ended,
        Err(Failed) => Ended::Sink,
    }
}
