// One request of a connection is answered: heard, judged, looked for in the depot, and written. The file isn't copied:
// its head and its bytes are two puts.
ghost use Rattle.std.specs.Prelude.{◌≡◌, ◌≤◌, ◌++◌, MatchOption, IsNone, IsSomeAnd, IfOk, length, List, ℕ};
ghost use Rattle.addr_base.specs.Files.{SameStore};
ghost use Rattle.addr_base.specs.Faults.{Rose};
ghost use Rattle.addr_wire.specs.Connections.{Puts};
ghost use Rattle.addr_http.specs.Heads.{room};
ghost use Rattle.addr_http.specs.Hearing.{HasHeard, IsInside, KeepsSource, ReadsEnough, Told};
ghost use Rattle.addr_http.specs.Requests.{Asks};
ghost use Rattle.addr_http.specs.Responses.{AnswersWith, Causes, Replies, ServesHeard, SinkCauses, Tells, Writes, reply_status, reply_text};
ghost use Rattle.addr_http.specs.declared.requests.Asked.TheVariants.{Wants};

use crate::heads::Heard;
use crate::hearing::hear;
use crate::replies::{Reply, body, head, status};
use crate::requests::{Asked, judge};
use addr_base::{Depot, DepotErr, Failed, Items, NoMemory};
use addr_wire::Conn;
use std::alloc::Global;

/// How serving a connection ended.
#[derive(Clone, Copy, Debug, PartialEq, Eq)]
pub enum Served {
    /// The response with that status was written.
    Answered(u16),
    /// The connection failed; a front of the response was written, or nothing.
    Broken,
    /// Nothing was written.
    NoMemory,
}

/// Answers one request of a connection, with the file `<folder>/remote/<name>` of the depot where it asks for one. It
/// takes 8 KiB, 128 KiB while it reads the head's fields, and the file.
pub fn answer<D: Depot, C: Conn>(alloc: Global, depot: &mut D, folder: &str, conn: &mut C) -> Served
    ensures told { Tells folder.now (D.now depot.old).files (D.now depot.old).faults (D.now depot.new).faults
        (C.now conn.old) (C.now conn.new) result }
    ensures no_more { Told (ReadsEnough (C.now conn.new).last) (C.now conn.old).left (C.now conn.new).left }
    ensures failed { result ≡ Served.Answered 500 → Rose (D.now depot.old).faults (D.now depot.new).faults }
    ensures cause { Causes (C.now conn.old) (C.now conn.new) result }
    ensures same { SameStore (D.now depot.old) (D.now depot.new) }
    ensures later { (D.now depot.old).faults ≤ (D.now depot.new).faults }
{
    match vec![in alloc; 0u8; 8192] {
        Ok(mut buffer) => answer_in(alloc, depot, folder, conn, &mut buffer),
        Err(_) => Served::NoMemory,
    }
}

fn answer_in<D: Depot, C: Conn>(
    alloc: Global,
    depot: &mut D,
    folder: &str,
    conn: &mut C,
    buffer: &mut [u8],
) -> Served
    requires { length buffer.old ≡ room }
    ensures told { Tells folder.now (D.now depot.old).files (D.now depot.old).faults (D.now depot.new).faults
        (C.now conn.old) (C.now conn.new) result }
    ensures no_more { Told (ReadsEnough (C.now conn.new).last) (C.now conn.old).left (C.now conn.new).left }
    ensures failed { result ≡ Served.Answered 500 → Rose (D.now depot.old).faults (D.now depot.new).faults }
    ensures cause { Causes (C.now conn.old) (C.now conn.new) result }
    ensures same { SameStore (D.now depot.old) (D.now depot.new) }
    ensures later { (D.now depot.old).faults ≤ (D.now depot.new).faults }
{
    match hear(conn, buffer) {
        Ok(heard) => serve(alloc, depot, folder, conn, heard, buffer),
        Err(Failed) => Served::Broken,
    }
}

/// Answers what was heard, of which a head stands at the buffer's front.
fn serve<D: Depot, C: Conn>(
    alloc: Global,
    depot: &mut D,
    folder: &str,
    conn: &mut C,
    heard: Heard,
    buffer: &[u8],
) -> Served
    requires { IsInside buffer.now heard }
    ensures told { MatchOption (C.now conn.old).written (IsNone (C.now conn.new).written) (λ old.
        IsSomeAnd (C.now conn.new).written (λ new.
        ServesHeard buffer.now heard folder.now (D.now depot.old).files (D.now depot.old).faults (D.now depot.new).faults
        old new result)) }
    ensures failed { result ≡ Served.Answered 500 → Rose (D.now depot.old).faults (D.now depot.new).faults }
    ensures cause { SinkCauses (C.now conn.old).sink_faults (C.now conn.new).sink_faults result }
    ensures same { SameStore (D.now depot.old) (D.now depot.new) }
    ensures later { (D.now depot.old).faults ≤ (D.now depot.new).faults }
    ensures source { KeepsSource (C.now conn.old) (C.now conn.new) }
{
    let Ok(asked) = asked_in(alloc, heard, buffer) else {
        return Served::NoMemory;
    };
    let Ok(reply) = reply(alloc, depot, folder, &asked) else {
        return Served::NoMemory;
    };
    respond(alloc, conn, &reply)
}

fn asked_in(alloc: Global, heard: Heard, buffer: &[u8]) -> Result<Asked, NoMemory>
    requires { IsInside buffer.now heard }
    ensures { IfOk result (λ asked. (left : List ℕ) → HasHeard left buffer.now heard → Asks left asked) }
{
    match heard {
        Heard::Head(n) => judge(alloc, &buffer[..n]),
        Heard::TooLong => Ok(Asked::TooLarge),
        Heard::Cut => Ok(Asked::Bad),
    }
}

fn reply<D: Depot>(
    alloc: Global,
    depot: &mut D,
    folder: &str,
    asked: &Asked,
) -> Result<Reply, NoMemory>
    ensures told { IfOk result
        (Replies folder.now (D.now depot.old).files (D.now depot.old).faults (D.now depot.new).faults asked.now) }
    ensures same { SameStore (D.now depot.old) (D.now depot.new) }
    ensures later { (D.now depot.old).faults ≤ (D.now depot.new).faults }
{
    match asked {
        Asked::TooLarge => Ok(Reply::TooLarge),
        Asked::Bad => Ok(Reply::Bad),
        Asked::NotAllowed => Ok(Reply::NotAllowed),
        Asked::Absent => Ok(Reply::NotFound),
        Asked::Wants { head_only, name } => look(alloc, depot, folder, *head_only, name.as_str()),
    }
}

fn look<D: Depot>(
    alloc: Global,
    depot: &mut D,
    folder: &str,
    head_only: bool,
    name: &str,
) -> Result<Reply, NoMemory>
    ensures told { IfOk result
        (Replies folder.now (D.now depot.old).files (D.now depot.old).faults (D.now depot.new).faults
        (Wants head_only name.now)) }
    ensures same { SameStore (D.now depot.old) (D.now depot.new) }
    ensures later { (D.now depot.old).faults ≤ (D.now depot.new).faults }
{
    let path = format!(in alloc; "{folder}/remote/{name}")?;
    match depot.read(alloc, path.as_str()) {
        Ok(Some(bytes)) => Ok(Reply::File {
            head_only,
            bytes: Items::from_vec(bytes),
        }),
        Ok(None) => Ok(Reply::NotFound),
        Err(DepotErr::Fault) => Ok(Reply::Failed),
        Err(DepotErr::NoMemory) => Err(NoMemory),
    }
}

fn respond<C: Conn>(alloc: Global, conn: &mut C, reply: &Reply) -> Served
    ensures told { MatchOption (C.now conn.old).written (IsNone (C.now conn.new).written) (λ old.
        IsSomeAnd (C.now conn.new).written (Writes (reply_text reply.now) (reply_status reply.now) result old)) }
    ensures answered { AnswersWith (reply_status reply.now) result }
    ensures cause { SinkCauses (C.now conn.old).sink_faults (C.now conn.new).sink_faults result }
    ensures source { KeepsSource (C.now conn.old) (C.now conn.new) }
{
    match head(alloc, reply) {
        Ok(text) => match write(conn, text.as_bytes(), body(reply)) {
            Ok(()) => Served::Answered(status(reply).as_u16()),
            Err(Failed) => Served::Broken,
        },
        Err(NoMemory) => Served::NoMemory,
    }
}

/// Puts a head and a body, one after the other.
fn write<C: Conn>(conn: &mut C, head: &[u8], body: &[u8]) -> Result<(), Failed>
    ensures { Puts (C.now conn.old) result (head.now ++ body.now) (C.now conn.new) }
{
    match conn.put(head) {
        Ok(()) => conn.put(body),
        Err(Failed) => Err(Failed),
    }
}
