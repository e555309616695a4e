// The body of an answer: as long as it says, or up to the end.
ghost use Rattle.std.specs.Prelude.{◌≡◌, ◌<◌, ◌≤◌, ◌+◌, ◌^◌, drop, length, take, ◌-◌};
ghost use Rattle.addr_wire.specs.Counts.{Counts};
ghost use Rattle.addr_http.specs.Bodies.{Bodies, Takes};
ghost use Rattle.addr_http.specs.Conversations.{Serves};
ghost use Rattle.addr_http.specs.declared.headed.Said.TheVariants.{Open, Sized};

use crate::collecting::{Collected, collect, pour_front};
use crate::headed::Said;
use crate::outcome::Outcome;
use addr_base::{Failed, NoMemory};
use addr_fetch::Pour;
use addr_wire::Connect;

/// Pours a body of which the bytes of the buffer from `len` to `at` are there: at most so many bytes of it, and until
/// `total` of them came.
fn pour_part<C: Connect, P: Pour>(
    conn: &mut C,
    into: &mut P,
    total: u64,
    room: u64,
    len: usize,
    at: usize,
    buffer: &mut [u8],
) -> Result<Collected, Failed>
    requires some { 0 < length buffer.old }
    requires ordered { len ≤ at }
    requires within { at ≤ length buffer.old }
    ensures told { Takes P.took total room (take (at - len) (drop len buffer.old)) result into.old into.new
        (C.now conn.old).talk (C.now conn.new).talk }
    ensures cause { Counts (C.now conn.old).faults result (C.now conn.new).faults }
    ensures fixed { P.fixed into.new ≡ P.fixed into.old }
{
    let there = (at - len) as u64;
    match pour_front(into, &buffer[len..at], room) {
        Ok(()) => collect(
            conn,
            into,
            total.saturating_sub(there),
            room.saturating_sub(there),
            buffer,
        ),
        Err(NoMemory) => Ok(Collected::NoMemory),
    }
}

fn sized<C: Connect, P: Pour>(
    conn: &mut C,
    into: &mut P,
    size: u64,
    limit: u64,
    len: usize,
    at: usize,
    buffer: &mut [u8],
) -> Result<Outcome, Failed>
    requires some { 0 < length buffer.old }
    requires ordered { len ≤ at }
    requires within { at ≤ length buffer.old }
    ensures told { Serves P.took limit result
        (Bodies (Sized size) limit (C.now conn.old).faults (C.now conn.new).faults result
        (take (at - len) (drop len buffer.old)))
        into.old into.new (C.now conn.old).talk (C.now conn.new).talk }
    ensures cause { Counts (C.now conn.old).faults result (C.now conn.new).faults }
    ensures fixed { P.fixed into.new ≡ P.fixed into.old }
{
    if size > limit {
        return Ok(Outcome::TooLong(size));
    }
    match pour_part(conn, into, size, size, len, at, buffer) {
        Ok(Collected::Enough) => Ok(Outcome::Whole(size)),
        Ok(Collected::Ended(_)) => Ok(Outcome::Unreadable),
        Ok(Collected::NoMemory) => Ok(Outcome::NoMemory),
        Err(Failed) => Err(Failed),
    }
}

fn open_body<C: Connect, P: Pour>(
    conn: &mut C,
    into: &mut P,
    limit: u64,
    len: usize,
    at: usize,
    buffer: &mut [u8],
) -> Result<Outcome, Failed>
    requires some { 0 < length buffer.old }
    requires ordered { len ≤ at }
    requires within { at ≤ length buffer.old }
    requires limit { limit + 1 < 2 ^ 64 }
    ensures told { Serves P.took limit result
        (Bodies Open limit (C.now conn.old).faults (C.now conn.new).faults result
        (take (at - len) (drop len buffer.old)))
        into.old into.new (C.now conn.old).talk (C.now conn.new).talk }
    ensures cause { Counts (C.now conn.old).faults result (C.now conn.new).faults }
    ensures fixed { P.fixed into.new ≡ P.fixed into.old }
{
    match pour_part(conn, into, limit + 1, limit, len, at, buffer) {
        Ok(Collected::Enough) => Ok(Outcome::TooLong(limit + 1)),
        Ok(Collected::Ended(missing)) => Ok(Outcome::Whole((limit + 1).saturating_sub(missing))),
        Ok(Collected::NoMemory) => Ok(Outcome::NoMemory),
        Err(Failed) => Err(Failed),
    }
}

/// Pours the body of an answer whose head says how long it is, or doesn't.
pub fn pour_body<C: Connect, P: Pour>(
    conn: &mut C,
    into: &mut P,
    said: Said,
    limit: u64,
    len: usize,
    at: usize,
    buffer: &mut [u8],
) -> Result<Outcome, Failed>
    requires some { 0 < length buffer.old }
    requires ordered { len ≤ at }
    requires within { at ≤ length buffer.old }
    requires limit { limit + 1 < 2 ^ 64 }
    ensures told { Serves P.took limit result
        (Bodies said limit (C.now conn.old).faults (C.now conn.new).faults result
        (take (at - len) (drop len buffer.old)))
        into.old into.new (C.now conn.old).talk (C.now conn.new).talk }
    ensures cause { Counts (C.now conn.old).faults result (C.now conn.new).faults }
    ensures fixed { P.fixed into.new ≡ P.fixed into.old }
{
    match said {
        Said::Unreadable => Ok(Outcome::Unreadable),
        Said::Sized(size) => sized(conn, into, size, limit, len, at, buffer),
        Said::Open => open_body(conn, into, limit, len, at, buffer),
    }
}
