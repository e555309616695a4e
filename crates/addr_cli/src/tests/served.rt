// `serve` over a listener in memory: its lines and statuses, and words that are usage.
ghost use Rattle.std.specs.Prelude.{IfOk};
ghost use Rattle.addr_wire.specs.MemListeners.{listen_now};
ghost use Rattle.addr_serve.specs.Loops.{IsAhead};

use super::{one_file, words_of};
use crate::serving::run_live;
use crate::status::Status;
use addr_base::{MemDepot, MemSink};
use addr_wire::{MemConn, MemListen};
use std::alloc::Global;
use std::test::Fail;

/// A listener with a connection that asks for `/remote/a`, and one that asks for `/remote/b`.
fn two_peers(alloc: Global, fails: u32) -> Result<MemListen, Fail>
    ensures { IfOk result (λ listen. IsAhead (listen_now listen).conns) }
{
    let mut conns = Vec::new(alloc);
    for request in [
        "GET /remote/a HTTP/1.1\r\nHost: x\r\n\r\n",
        "GET /remote/b HTTP/1.1\r\nHost: x\r\n\r\n",
    ] {
        let input = Vec::from_slice(alloc, request.as_bytes())?;
        conns.push(MemConn::new(alloc, input, Vec::new(alloc)))?;
    }
    let fails = Vec::from_slice(alloc, &[fails])?;
    Ok(MemListen::new(alloc, conns, fails)?)
}

/// Whether serving two peers ends with this status and prints this text, where that call of the listener is to fail.
fn serves(alloc: Global, line: &str, fails: u32, status: u8, text: &str) -> Result<bool, Fail> {
    let words = words_of(alloc, line)?;
    let mut depot = MemDepot::new(one_file(alloc, "F/remote/a", b"hello")?, Vec::new(alloc));
    let mut listen = two_peers(alloc, fails)?;
    let mut out = MemSink::new(alloc, Vec::new(alloc));
    let ended = run_live(alloc, words.as_slice(), &mut depot, &mut listen, &mut out);
    Ok(ended == Status(status) && out.written() == text.as_bytes())
}

#[test]
fn serves_as_its_words_ask(rt: HostRuntime) -> Result<(), Fail> {
    for (line, fails, status, text) in [
        ("serve F 8080 2", 0u32, 0u8, "serving 8080\n200\n404\n"),
        ("serve F 8080 1", 0, 0, "serving 8080\n200\n"),
        ("serve F 8080 2", 1, 14, "error 14 net\n"),
        (
            "serve F 8080 3",
            0,
            14,
            "serving 8080\n200\n404\nerror 14 net\n",
        ),
        ("serve F 65536 2", 0, 2, "error 2 usage\n"),
        ("serve F 08080 2", 0, 2, "error 2 usage\n"),
        ("serve F 8080 0", 0, 2, "error 2 usage\n"),
        ("serve F 8080 1000001", 0, 2, "error 2 usage\n"),
        ("serve F 8080", 0, 2, "error 2 usage\n"),
        ("serve F 8080 2 x", 0, 2, "error 2 usage\n"),
    ] {
        assert!(rt; serves(rt.alloc(), line, fails, status, text)?);
    }
    Ok(())
}
