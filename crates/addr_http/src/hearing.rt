// Reading a request's head from a connection in pieces.
ghost use Rattle.std.specs.Prelude.{◌≡◌, ◌<◌, ◌≤◌, ◌+◌, length, IfOk, IfSome};
ghost use Rattle.addr_wire.specs.Connections.{taken};
ghost use Rattle.addr_wire.specs.Counts.{Counts};
ghost use Rattle.addr_http.specs.Hearing.{HasHeard, IsInside, KeepsSink, ReadsNoMore, TakesAt, Told};
ghost use Rattle.addr_http.specs.Heads.{room};

use crate::heads::{Heard, head_end};
use addr_base::Failed;
use addr_wire::Conn;

fn read_at<C: Conn>(conn: &mut C, buffer: &mut [u8], at: usize) -> Result<usize, Failed>
    requires { at < length buffer.old }
    ensures fits { IfOk result (λ n. at + n ≤ length buffer.old) }
    ensures told { Told (TakesAt at result buffer.old buffer.new) (C.now conn.old).left (C.now conn.new).left }
    ensures last { (C.now conn.new).last ≡ taken result }
    ensures cause { Counts (C.now conn.old).source_faults result (C.now conn.new).source_faults }
    ensures sink { KeepsSink (C.now conn.old) (C.now conn.new) }
{
    conn.read(&mut buffer[at..])
}

/// Reads a request until its head ends, or the buffer is full, or the input ends. It takes no memory; each read's bytes
/// are searched from the start on.
pub fn hear<C: Conn>(conn: &mut C, buffer: &mut [u8]) -> Result<Heard, Failed>
    requires { length buffer.old ≡ room }
    ensures told { IfSome (C.now conn.old).left (λ left. IfOk result (HasHeard left buffer.new)) }
    ensures inside { IfOk result (IsInside buffer.new) }
    ensures len { length buffer.new ≡ length buffer.old }
    ensures no_more { Told (ReadsNoMore (C.now conn.new).last) (C.now conn.old).left (C.now conn.new).left }
    ensures cause { Counts (C.now conn.old).source_faults result (C.now conn.new).source_faults }
    ensures sink { KeepsSink (C.now conn.old) (C.now conn.new) }
{
    let mut at = 0;
    'reads: while at < buffer.len() {
        let n = read_at(conn, buffer, at)?;
        if n == 0 {
            return Ok(Heard::Cut);
        }
        at += n;
        if let Some(end) = head_end(&buffer[..at]) {
            return Ok(Heard::Head(end));
        }
    }
    Ok(Heard::TooLong)
}
