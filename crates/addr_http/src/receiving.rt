// The front of an answer is received in pieces, until its head is whole or none can come any more.
ghost use Rattle.std.specs.Prelude.{◌≡◌, ◌<◌, ◌≤◌, ◌+◌, length, IfOk};
ghost use Rattle.addr_wire.specs.Counts.{Counts};
ghost use Rattle.addr_wire.specs.Talks.{Talk};
ghost use Rattle.addr_http.specs.Conversations.{IsSilent};
ghost use Rattle.addr_http.specs.Fronts.{Fronts, HearsAt, IsIn};
ghost use Rattle.addr_http.specs.Heads.{room};
ghost use Rattle.addr_http.specs.Hearing.{Told};

use crate::headed::{Headed, Looked, look};
use addr_base::Failed;
use addr_wire::Connect;
use httparse::spans::HeaderSpan;

/// What was received up to the end of a head: what it says, its length, and how many bytes came with it.
#[derive(Clone, Copy)]
pub enum Front {
    Whole(Headed, usize, usize),
    Unreadable,
}

fn receive_at<C: Connect>(conn: &mut C, buffer: &mut [u8], at: usize) -> Result<usize, Failed>
    requires { at < length buffer.old }
    ensures fits { IfOk result (λ n. at + n ≤ length buffer.old) }
    ensures told { Told (HearsAt at result buffer.old buffer.new) (C.now conn.old).talk (C.now conn.new).talk }
    ensures cause { Counts (C.now conn.old).faults result (C.now conn.new).faults }
{
    conn.receive(&mut buffer[at..])
}

/// Receives until a head is whole, or none can come any more.
pub fn receive_front<C: Connect>(
    conn: &mut C,
    buffer: &mut [u8],
    fields: &mut [HeaderSpan],
) -> Result<Front, Failed>
    requires buffer { length buffer.old ≡ room }
    requires fields { length fields.old ≡ 4096 }
    ensures told { Told (λ old new. IsSilent old → Fronts old.sent result buffer.new new)
        (C.now conn.old).talk (C.now conn.new).talk }
    ensures inside { IfOk result (IsIn buffer.new) }
    ensures buffer_len { length buffer.new ≡ length buffer.old }
    ensures cause { Counts (C.now conn.old).faults result (C.now conn.new).faults }
{
    let mut at = 0;
    'reads: while at < buffer.len() {
        let n = receive_at(conn, buffer, at)?;
        if n == 0 {
            return Ok(Front::Unreadable);
        }
        at += n;
        match look(&buffer[..at], fields) {
            Looked::Whole(headed, len) => return Ok(Front::Whole(headed, len, at)),
            Looked::Never => return Ok(Front::Unreadable),
            Looked::More => {}
        }
    }
    Ok(Front::Unreadable)
}
