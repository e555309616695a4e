// A connection over a socket. A peer that says nothing for half a minute counts as a failed read or put, so that a
// silent client costs its connection and nothing else.
ghost use Rattle.std.specs.Prelude.{◌≤◌, None, IfSome, length};
ghost use Rattle.addr_wire.specs.Connections.{ConnNow};

use addr_base::Failed;
use addr_wire::Conn;
use std::io::{ErrorKind, Read, Write};
use std::net::OpenStream;
use std::time::Duration;

/// How long a read or a put waits for the peer, in seconds.
const PATIENCE: u64 = 30;

/// A connection over a stream of the system.
#[derive(Drop)]
pub struct TcpConn<S> {
    stream: S,
    last: usize,
    source_faults: u64,
    sink_faults: u64,
}

impl<S: Read + Write + OpenStream> TcpConn<S> {
    /// Where the system takes no time limit, none is kept.
    pub fn new(stream: S) -> TcpConn<S> {
        limit_waiting(&stream);
        TcpConn {
            stream,
            last: 0,
            source_faults: 0,
            sink_faults: 0,
        }
    }
}

impl<S: Read + Write + OpenStream> Conn for TcpConn<S> {
    ghost now = { λ conn. record {
      left = None;
      last = conn.last;
      source_faults = conn.source_faults;
      written = None;
      sink_faults = conn.sink_faults;
    } };

    fn read(&mut self, into: &mut [u8]) -> Result<usize, Failed> {
        match read_once(&mut self.stream, into) {
            Some(count) => {
                self.last = count;
                Ok(count)
            }
            None => {
                self.last = 0;
                self.source_faults = self.source_faults.saturating_add(1);
                Err(Failed)
            }
        }
    }

    /// A put that takes nothing of a piece that isn't empty has failed.
    fn put(&mut self, bytes: &[u8]) -> Result<(), Failed> {
        if self.stream.write_all(bytes).is_err() {
            self.sink_faults = self.sink_faults.saturating_add(1);
            return Err(Failed);
        }
        Ok(())
    }
}

/// Sets the time limits; a stream that takes none waits without one.
pub fn limit_waiting<S: OpenStream>(stream: &S) {
    let patience = Some(Duration::from_secs(PATIENCE));
    let _ = stream.set_read_timeout(patience);
    let _ = stream.set_write_timeout(patience);
}

/// One read, begun again where a signal broke it off; None where it failed.
pub fn read_once<S: Read>(stream: &mut S, into: &mut [u8]) -> Option<usize>
    ensures { IfSome result (λ n. n ≤ length into.new) }
{
    for _ in 0..u64::MAX {
        match stream.read(into) {
            Ok(count) => return Some(count),
            Err(error) if error.kind() == ErrorKind::Interrupted => {}
            Err(_) => return None,
        }
    }
    None
}
