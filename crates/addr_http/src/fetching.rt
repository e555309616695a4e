// One conversation: the request is sent, and the answer received and poured. Beside the head, which is kept until it is
// whole, no more than one piece is kept.
ghost use Rattle.std.specs.Prelude.{◌≡◌, ◌<◌, ◌+◌, ◌^◌, length};
ghost use Rattle.addr_wire.specs.Counts.{Counts};
ghost use Rattle.addr_http.specs.Conversations.{Asked, Asks, GetsFrom, Serves};
ghost use Rattle.addr_http.specs.Heads.{room};

use crate::bodies::pour_body;
use crate::headed::Headed;
use crate::outcome::Outcome;
use crate::receiving::{Front, receive_front};
use addr_base::Failed;
use addr_fetch::Pour;
use addr_wire::Connect;
use httparse::spans::{EMPTY_HEADER_SPAN, HeaderSpan};
use std::alloc::Global;

/// Where a request goes.
#[derive(Drop)]
pub struct Request<'a> {
    pub host: &'a str,
    pub port: u16,
    pub bytes: &'a [u8],
}

/// Receives an answer: its head, and its body as far as the limit lets.
fn receive_answer<C: Connect, P: Pour>(
    conn: &mut C,
    into: &mut P,
    limit: u64,
    buffer: &mut [u8],
    fields: &mut [HeaderSpan],
) -> Result<Outcome, Failed>
    requires buffer { length buffer.old ≡ room }
    requires fields { length fields.old ≡ 4096 }
    requires limit { limit + 1 < 2 ^ 64 }
    ensures told { Serves P.took limit result (GetsFrom limit (C.now conn.old).faults (C.now conn.new).faults result)
        into.old into.new (C.now conn.old).talk (C.now conn.new).talk }
    ensures cause { Counts (C.now conn.old).faults result (C.now conn.new).faults }
    ensures fixed { P.fixed into.new ≡ P.fixed into.old }
{
    match receive_front(conn, buffer, fields) {
        Ok(Front::Whole(headed, len, at)) => match headed {
            Headed::Unreadable => Ok(Outcome::Unreadable),
            Headed::Missing => Ok(Outcome::Missing),
            Headed::Refused(code) => Ok(Outcome::Refused(code)),
            Headed::Body(said) => pour_body(conn, into, said, limit, len, at, buffer),
        },
        Ok(Front::Unreadable) => Ok(Outcome::Unreadable),
        Err(Failed) => Err(Failed),
    }
}

fn ask_in<C: Connect, P: Pour>(
    conn: &mut C,
    into: &mut P,
    request: &Request<'_>,
    limit: u64,
    buffer: &mut [u8],
    fields: &mut [HeaderSpan],
) -> Result<Outcome, Failed>
    requires buffer { length buffer.old ≡ room }
    requires fields { length fields.old ≡ 4096 }
    requires limit { limit + 1 < 2 ^ 64 }
    ensures told { Serves P.took limit result
        (Asked limit (C.now conn.old).faults (C.now conn.new).faults request.now.bytes.now result)
        into.old into.new (C.now conn.old).talk (C.now conn.new).talk }
    ensures cause { Counts (C.now conn.old).faults result (C.now conn.new).faults }
    ensures fixed { P.fixed into.new ≡ P.fixed into.old }
{
    match conn.open(request.host, request.port) {
        Ok(()) => match conn.send(request.bytes) {
            Ok(()) => receive_answer(conn, into, limit, buffer, fields),
            Err(Failed) => Err(Failed),
        },
        Err(Failed) => Err(Failed),
    }
}

/// Asks for one answer, and receives it. It takes 8 KiB and 128 KiB for the head and its fields.
pub fn ask<C: Connect, P: Pour>(
    alloc: Global,
    conn: &mut C,
    into: &mut P,
    request: &Request<'_>,
    limit: u64,
) -> Result<Outcome, Failed>
    requires { limit + 1 < 2 ^ 64 }
    ensures told { Serves P.took limit result
        (Asks limit (C.now conn.old).faults (C.now conn.new).faults request.now.bytes.now result)
        into.old into.new (C.now conn.old).talk (C.now conn.new).talk }
    ensures cause { Counts (C.now conn.old).faults result (C.now conn.new).faults }
    ensures fixed { P.fixed into.new ≡ P.fixed into.old }
{
    let Ok(mut buffer) = vec![in alloc; 0u8; 8192] else {
        return Ok(Outcome::NoMemory);
    };
    let Ok(mut fields) = vec![in alloc; EMPTY_HEADER_SPAN; 4096] else {
        return Ok(Outcome::NoMemory);
    };
    ask_in(conn, into, request, limit, &mut buffer, &mut fields)
}
