// A body is received in pieces, and each is poured as it comes: no more than one piece is kept.
ghost use Rattle.std.specs.Prelude.{◌≡◌, ◌<◌, [], OnErr, OnOk, length, min, take};
ghost use Rattle.addr_wire.specs.Counts.{Counts};
ghost use Rattle.addr_http.specs.Collecting.{Collects, Receives};
ghost use Rattle.addr_http.specs.Pours.{Pours};

use addr_base::{Failed, NoMemory};
use addr_fetch::Pour;
use addr_wire::Connect;

/// What one receive brought to a pourer.
#[derive(Clone, Copy)]
pub enum Piece {
    /// So many bytes.
    Came(usize),
    /// The conversation has ended.
    Over,
    /// The pourer was refused memory.
    Refused,
}

/// How a part of a body was received.
#[derive(Clone, Copy)]
pub enum Collected {
    /// All bytes that were waited for came.
    Enough,
    /// The conversation ended while so many bytes were missing.
    Ended(u64),
    NoMemory,
}

/// Pours the front of a piece, at most so many bytes.
pub fn pour_front<P: Pour>(into: &mut P, piece: &[u8], room: u64) -> Result<(), NoMemory>
    ensures ok { OnOk result (Pours P.took into.old into.new (take room piece.now)) }
    ensures err { OnErr result (Pours P.took into.old into.new []) }
    ensures fixed { P.fixed into.new ≡ P.fixed into.old }
{
    let count = front_len(piece.len(), room);
    into.pour(&piece[..count])
}

/// The lesser of a length and a room.
fn front_len(len: usize, room: u64) -> usize
    ensures { result ≡ min len room }
{
    if (len as u64) <= room {
        len
    } else {
        room as usize
    }
}

fn receive_piece<C: Connect, P: Pour>(
    conn: &mut C,
    into: &mut P,
    room: u64,
    buffer: &mut [u8],
) -> Result<Piece, Failed>
    requires { 0 < length buffer.old }
    ensures told { Receives P.took room result into.old into.new (C.now conn.old).talk (C.now conn.new).talk }
    ensures cause { Counts (C.now conn.old).faults result (C.now conn.new).faults }
    ensures fixed { P.fixed into.new ≡ P.fixed into.old }
    ensures len { length buffer.new ≡ length buffer.old }
{
    match conn.receive(buffer) {
        Ok(n) => {
            if n == 0 {
                return Ok(Piece::Over);
            }
            match pour_front(into, &buffer[..n], room) {
                Ok(()) => Ok(Piece::Came(n)),
                Err(NoMemory) => Ok(Piece::Refused),
            }
        }
        Err(Failed) => Err(Failed),
    }
}

/// Receives until so many bytes came, and pours them, at most as many as there is room for.
pub fn collect<C: Connect, P: Pour>(
    conn: &mut C,
    into: &mut P,
    left: u64,
    room: u64,
    buffer: &mut [u8],
) -> Result<Collected, Failed>
    requires { 0 < length buffer.old }
    ensures told { Collects P.took left room result into.old into.new (C.now conn.old).talk (C.now conn.new).talk }
    ensures cause { Counts (C.now conn.old).faults result (C.now conn.new).faults }
    ensures fixed { P.fixed into.new ≡ P.fixed into.old }
{
    let mut left = left;
    let mut room = room;
    'pieces: while left > 0 {
        match receive_piece(conn, into, room, buffer) {
            Ok(Piece::Came(n)) => {
                left = left.saturating_sub(n as u64);
                room = room.saturating_sub(n as u64);
            }
            Ok(Piece::Over) => return Ok(Collected::Ended(left)),
            Ok(Piece::Refused) => return Ok(Collected::NoMemory),
            Err(Failed) => return Err(Failed),
        }
    }
    Ok(Collected::Enough)
}
