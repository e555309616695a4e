// What no clause says: requests and answers as other programs write them, whole, in small pieces and cut short, and that
// each call succeeds where memory is ample.
use crate::{HttpFetch, Served, answer};
use addr_base::{Items, MemDepot, MemFile, NoMemory, Text};
use addr_fetch::{Collected, Fetch, Poured};
use addr_wire::{MemConn, MemConnect};
use std::alloc::Global;
use std::test::Fail;

const GET: &str = "GET /remote/a HTTP/1.1\r\nHost: x\r\n\r\n";

const FILE: &str =
    "HTTP/1.1 200 OK\r\nContent-Length: 5\r\nContent-Type: application/octet-stream\r\nConnection: close\r\n\r\nhello";

const BARE: &str =
    "HTTP/1.1 200 OK\r\nContent-Length: 5\r\nContent-Type: application/octet-stream\r\nConnection: close\r\n\r\n";

const BAD: &str = "HTTP/1.1 400 Bad Request\r\nContent-Length: 0\r\nConnection: close\r\n\r\n";

const GONE: &str = "HTTP/1.1 404 Not Found\r\nContent-Length: 0\r\nConnection: close\r\n\r\n";

const OTHER: &str =
    "HTTP/1.1 405 Method Not Allowed\r\nContent-Length: 0\r\nAllow: GET, HEAD\r\nConnection: close\r\n\r\n";

const LARGE: &str =
    "HTTP/1.1 431 Request Header Fields Too Large\r\nContent-Length: 0\r\nConnection: close\r\n\r\n";

const FAULT: &str =
    "HTTP/1.1 500 Internal Server Error\r\nContent-Length: 0\r\nConnection: close\r\n\r\n";

/// A depot with one file, `F/remote/a`, of the bytes `hello`.
fn one_file(alloc: Global, fails: &[u32]) -> Result<MemDepot, Fail> {
    let mut files = Vec::new(alloc);
    files.push(MemFile {
        name: Text::copy_of(alloc, "F/remote/a")?,
        bytes: Items::copy_of(alloc, b"hello")?,
    })?;
    Ok(MemDepot::new(files, Vec::from_slice(alloc, fails)?))
}

fn peer(alloc: Global, input: &[u8], fails: &[u32]) -> Result<MemConn, Fail> {
    let input = Vec::from_slice(alloc, input)?;
    let fails = Vec::from_slice(alloc, fails)?;
    Ok(MemConn::new(alloc, input, fails).in_pieces(3))
}

#[test]
fn answers_what_is_asked(rt: HostRuntime) -> Result<(), Fail> {
    for (request, want) in [
        (GET, FILE),
        ("HEAD /remote/a HTTP/1.1\r\nHost: x\r\n\r\n", BARE),
        ("\nGET http://h?x/remote/a?b HTTP/1.0\n\n", FILE),
        ("GET /remote/b HTTP/1.1\r\nHost: x\r\n\r\n", GONE),
        ("GET /remote/.. HTTP/1.1\r\nHost: x\r\n\r\n", GONE),
        ("POST /remote/a HTTP/1.1\r\nHost: x\r\n\r\n", OTHER),
        ("get /remote/a HTTP/1.1\r\nHost: x\r\n\r\n", OTHER),
        ("GET /remote/a HTTP/1.1\r\n\r\n", BAD),
        ("GET /remote/a HTTP/1.0\r\nHost: x\r\nhost: x\r\n\r\n", BAD),
        ("", BAD),
    ] {
        let mut depot = one_file(rt.alloc(), &[])?;
        let mut conn = peer(rt.alloc(), request.as_bytes(), &[])?;
        let served = answer(rt.alloc(), &mut depot, "F", &mut conn);
        assert!(rt; matches!(served, Served::Answered(_)), "{request:?}");
        assert_eq!(rt; conn.written(), want.as_bytes());
    }
    let mut depot = one_file(rt.alloc(), &[1])?;
    let mut conn = peer(rt.alloc(), GET.as_bytes(), &[])?;
    assert_eq!(rt;
        answer(rt.alloc(), &mut depot, "F", &mut conn),
        Served::Answered(500)
    );
    assert_eq!(rt; conn.written(), FAULT.as_bytes());
    Ok(())
}

#[test]
fn answers_a_cut_request(rt: HostRuntime) -> Result<(), Fail> {
    for len in 0..GET.len() {
        let mut depot = one_file(rt.alloc(), &[])?;
        let mut conn = peer(rt.alloc(), &GET.as_bytes()[..len], &[])?;
        assert_eq!(rt;
            answer(rt.alloc(), &mut depot, "F", &mut conn),
            Served::Answered(400)
        );
        assert_eq!(rt; conn.written(), BAD.as_bytes());
        if len > 0 {
            let mut conn = peer(rt.alloc(), &GET.as_bytes()[..len], &[2])?;
            assert_eq!(rt;
                answer(rt.alloc(), &mut depot, "F", &mut conn),
                Served::Broken
            );
            assert_eq!(rt; conn.written(), b"".as_slice());
        }
    }
    Ok(())
}

#[test]
fn answers_a_head_without_end(rt: HostRuntime) -> Result<(), Fail> {
    for (len, want) in [(8191usize, BAD), (8193, LARGE)] {
        let mut depot = one_file(rt.alloc(), &[])?;
        let input = vec![in rt.alloc(); b'a'; len]?;
        let mut conn = MemConn::new(rt.alloc(), input, Vec::new(rt.alloc()));
        let _served = answer(rt.alloc(), &mut depot, "F", &mut conn);
        assert_eq!(rt; conn.written(), want.as_bytes());
    }
    Ok(())
}

#[test]
fn fetches_what_is_given(rt: HostRuntime) -> Result<(), Fail> {
    for (given, want, body) in [
        (FILE, Poured::Whole(5), "hello"),
        ("HTTP/1.1 200 OK\r\n\r\nabc", Poured::Whole(3), "abc"),
        (
            "HTTP/1.1 200 OK\r\nContent-Length: 03\r\n\r\nabcd",
            Poured::Whole(3),
            "abc",
        ),
        (GONE, Poured::Missing, ""),
        (FAULT, Poured::Refused(500), ""),
        (
            "HTTP/1.1 200 OK\r\nContent-Length: 9\r\n\r\nabc",
            Poured::TooLong(9),
            "",
        ),
        (
            "HTTP/1.1 200 OK\r\n\r\nabcdefgh",
            Poured::TooLong(6),
            "abcde",
        ),
        (
            "HTTP/1.1 200 OK\r\nContent-Length: 4\r\n\r\nabc",
            Poured::Fault(1),
            "abc",
        ),
        (
            "HTTP/1.1 200 OK\r\nTransfer-Encoding: x\r\n\r\nabc",
            Poured::Fault(1),
            "",
        ),
        ("HTTP/1.1 200 OK\r\n", Poured::Fault(1), ""),
    ] {
        let answer = Vec::from_slice(rt.alloc(), given.as_bytes())?;
        let conn = MemConnect::new(rt.alloc(), answer, Vec::new(rt.alloc())).in_pieces(2);
        let mut fetch = HttpFetch::new(conn);
        let mut kept = Collected::new(rt.alloc());
        assert_eq!(rt;
            fetch.fetch_to(rt.alloc(), "http://x:81/remote/a", 5, &mut kept),
            want
        );
        assert_eq!(rt; kept.into_items().as_slice(), body.as_bytes());
        assert_eq!(rt;
            fetch.connector().sent(),
            b"GET /remote/a HTTP/1.1\r\nHost: x:81\r\nConnection: close\r\n\r\n".as_slice()
        );
    }
    Ok(())
}

#[test]
fn fetches_where_the_connector_fails(rt: HostRuntime) -> Result<(), Fail> {
    for (call, id, want) in [
        (1u32, "http://x/a", Poured::Fault(1)),
        (2, "http://x/a", Poured::Fault(1)),
        (3, "http://x/a", Poured::Fault(1)),
        (1, "local/a", Poured::Missing),
        (1, "http://x:0/a", Poured::Missing),
    ] {
        let answer = Vec::from_slice(rt.alloc(), FILE.as_bytes())?;
        let fails = Vec::from_slice(rt.alloc(), &[call])?;
        let mut fetch = HttpFetch::new(MemConnect::new(rt.alloc(), answer, fails));
        let mut kept = Collected::new(rt.alloc());
        assert_eq!(rt; fetch.fetch_to(rt.alloc(), id, 5, &mut kept), want);
    }
    Ok(())
}
