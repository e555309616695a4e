// One conversation of each adapter over a real loopback socket. The system keeps a connection and its first bytes until
// they are accepted and read, so that one thread plays both sides. Then a server and a fetcher in two threads.
ghost use Rattle.std.specs.Prelude.{None};

use crate::{TcpConn, TcpConnect, TcpListen};
use addr_base::{Failed, Items, MemDepot, MemFile, MemSink, NoMemory, Text};
use addr_fetch::{Collected, Fetch, Poured};
use addr_http::HttpFetch;
use addr_serve::{Ended, serve};
use addr_wire::{Conn, Connect, Listen};
use std::alloc::Global;
use std::net::Net;
use std::test::Fail;
use std::thread::join;

#[test]
fn talks_over_the_loopback(rt: HostRuntime) -> Result<(), Fail> {
    let mut listen = TcpListen::new(&rt);
    let mut connect = TcpConnect::new(&rt);
    let port = listen.open(0).ok().ok_or("open")?;
    assert!(rt; connect.open("127.0.0.1", port).is_ok());
    assert!(rt; connect.send(b"abc").is_ok());
    let mut conn = listen.accept().ok().ok_or("accept")?;
    let mut piece = [0u8; 8];
    assert_eq!(rt; conn.read(&mut piece).ok(), Some(3));
    assert_eq!(rt; piece, *b"abc\0\0\0\0\0");
    assert!(rt; conn.put(b"hello").is_ok());
    listen.finish(conn);
    assert_eq!(rt; connect.receive(&mut piece).ok(), Some(5));
    assert_eq!(rt; connect.receive(&mut piece).ok(), Some(0));
    connect.shut();
    assert!(rt; connect.send(b"x").is_err());
    assert_eq!(rt; connect.count(), 1);
    Ok(())
}

/// A listener that listens already, so that its peer knows the port before it serves.
#[derive(Drop)]
struct Listening<'a, R: Net> {
    listen: TcpListen<'a, R>,
    port: u16,
}

impl<R: Net> Listen for Listening<'_, R> {
    type Peer = TcpConn<R::Stream>;

    ghost now = { λ listening. record { port = None; conns = None; faults = listening.listen.faults } };

    fn open(&mut self, _port: u16) -> Result<u16, Failed> {
        Ok(self.port)
    }

    fn accept(&mut self) -> Result<TcpConn<R::Stream>, Failed> {
        self.listen.accept()
    }

    fn finish(&mut self, conn: TcpConn<R::Stream>) {
        self.listen.finish(conn);
    }
}

/// A depot with one file, `F/remote/a`, of the bytes `hello`.
fn one_file(alloc: Global) -> Result<MemDepot, NoMemory> {
    let mut files = Vec::new(alloc);
    files.push(MemFile {
        name: Text::copy_of(alloc, "F/remote/a")?,
        bytes: Items::copy_of(alloc, b"hello")?,
    })?;
    Ok(MemDepot::new(files, Vec::new(alloc)))
}

/// Whether two connections are served, a file and one that isn't there.
fn serves_both<R: Net>(alloc: Global, mut listen: Listening<'_, R>) -> bool {
    let Ok(mut depot) = one_file(alloc) else {
        return false;
    };
    let mut out = MemSink::new(alloc, Vec::new(alloc));
    let port = listen.port;
    let ended = serve(alloc, &mut depot, "F", port, 2, &mut listen, &mut out);
    ended == Ended::Done && out.written().ends_with(b"\n200\n404\n")
}

/// Whether both are fetched.
fn fetches_both<R: Net>(alloc: Global, net: &R, port: u16) -> bool {
    let (Ok(there), Ok(gone)) = (
        format!(in alloc; "http://127.0.0.1:{port}/remote/a"),
        format!(in alloc; "http://127.0.0.1:{port}/remote/b"),
    ) else {
        return false;
    };
    let mut fetch = HttpFetch::new(TcpConnect::new(net));
    let mut kept = Collected::new(alloc);
    let first = fetch.fetch_to(alloc, there.as_str(), 5, &mut kept);
    let second = fetch.fetch_to(alloc, gone.as_str(), 5, &mut kept);
    first == Poured::Whole(5)
        && second == Poured::Missing
        && kept.into_items().as_slice() == b"hello".as_slice()
}

#[test]
fn serves_and_fetches_in_two_threads(rt: HostRuntime) -> Result<(), Fail> {
    let mut listen = TcpListen::new(&rt);
    let port = listen.open(0).ok().ok_or("open")?;
    let listening = Listening { listen, port };
    let alloc = rt.alloc();
    let (served, fetched) = join(
        &rt,
        || serves_both(alloc, listening),
        || fetches_both(alloc, &rt, port),
    );
    assert!(rt; served && fetched);
    Ok(())
}
