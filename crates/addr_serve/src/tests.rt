// What no clause says: the lines as they are printed, and that serving succeeds where memory is ample.
ghost use Rattle.std.specs.Prelude.{IfOk};
ghost use Rattle.addr_wire.specs.MemListeners.{listen_now};
ghost use Rattle.addr_serve.specs.Loops.{IsAhead};

use crate::{Ended, serve};
use addr_base::{Items, MemDepot, MemFile, MemSink as Out, Text};
use addr_wire::{MemConn, MemListen};
use std::alloc::Global;
use std::test::Fail;

fn one_file(alloc: Global) -> Result<MemDepot, Fail> {
    let mut files = Vec::new(alloc);
    files.push(MemFile {
        name: Text::copy_of(alloc, "F/remote/a")?,
        bytes: Items::copy_of(alloc, b"hello")?,
    })?;
    Ok(MemDepot::new(files, Vec::new(alloc)))
}

/// A listener with a connection that asks for `/remote/a`, and one that asks for `/remote/b`.
fn two_peers(alloc: Global, fails: &[u32]) -> Result<MemListen, Fail>
    ensures { IfOk result (λ listen. IsAhead (listen_now listen).conns) }
{
    let mut conns = Vec::new(alloc);
    for request in [
        "GET /remote/a HTTP/1.1\r\nHost: x\r\n\r\n",
        "GET /remote/b HTTP/1.1\r\nHost: x\r\n\r\n",
    ] {
        let input = Vec::from_slice(alloc, request.as_bytes())?;
        conns.push(MemConn::new(alloc, input, Vec::new(alloc)))?;
    }
    let fails = Vec::from_slice(alloc, fails)?;
    Ok(MemListen::new(alloc, conns, fails)?)
}

#[test]
fn serves_two_connections(rt: HostRuntime) -> Result<(), Fail> {
    for (count, fails, ended, want) in [
        (2u32, 9u32, Ended::Done, "serving 8080\n200\n404\n"),
        (2, 1, Ended::Net, "error 14 net\n"),
        (3, 9, Ended::Net, "serving 8080\n200\n404\nerror 14 net\n"),
    ] {
        let mut depot = one_file(rt.alloc())?;
        let mut listen = two_peers(rt.alloc(), &[fails])?;
        let mut out = Out::new(rt.alloc(), Vec::new(rt.alloc()));
        assert_eq!(rt;
            serve(
                rt.alloc(),
                &mut depot,
                "F",
                8080,
                count,
                &mut listen,
                &mut out
            ),
            ended
        );
        assert_eq!(rt; out.written(), want.as_bytes());
    }
    Ok(())
}
