// A connection: a source and a sink in one value, where each side leaves the other as it was. What it is now is one
// record, so that a clause names a connection before and after a call and nothing else.
ghost use Rattle.std.specs.Prelude.{◌≤◌, IfOk, length};
ghost use Rattle.addr_wire.specs.Connections.{ConnNow, Puts, Reads};

use addr_base::Failed;

/// A connection to a peer.
pub trait Conn {
    /// What is left to be read and what was put, where it is told, how much the last read brought, and the count of
    /// faults of each side.
    ghost now: { Self → ConnNow };

    /// Reads at most the slice's length. Nothing read into a slice that isn't empty is the end of input.
    fn read(&mut self, into: &mut [u8]) -> Result<usize, Failed>
        ensures within { IfOk result (λ n. n ≤ length into.new) }
        ensures reads { Reads (now self.old) result into.new (now self.new) };

    /// Appends all bytes, or a prefix of them where it fails.
    fn put(&mut self, bytes: &[u8]) -> Result<(), Failed>
        ensures { Puts (now self.old) result bytes.now (now self.new) };
}
