// What makes a connection to a server: it is opened, bytes are sent, and what comes is received.
ghost use Rattle.std.specs.Prelude.{◌≡◌, ◌≤◌, IfOk, length};
ghost use Rattle.addr_wire.specs.Talks.{ConnectNow, Opens, Receives, Sends};

use addr_base::Failed;

/// A connector: one conversation after the other.
pub trait Connect {
    /// What was sent and given since it was last opened, where it tells it, and its count of faults.
    ghost now: { Self → ConnectNow };

    fn open(&mut self, host: &str, port: u16) -> Result<(), Failed>
        ensures { Opens (now self.old) result (now self.new) };

    /// Sends all bytes, or a prefix of them where it fails.
    fn send(&mut self, bytes: &[u8]) -> Result<(), Failed>
        ensures { Sends (now self.old) result bytes.now (now self.new) };

    /// Receives at most the slice's length. Nothing received into a slice that isn't empty is the end.
    fn receive(&mut self, into: &mut [u8]) -> Result<usize, Failed>
        ensures within { IfOk result (λ n. n ≤ length into.new) }
        ensures receives { Receives (now self.old) result into.new (now self.new) };

    /// Ends the conversation; what was said is told until the next `open`.
    fn shut(&mut self)
        ensures { now self.new ≡ now self.old };

    /// The count of faults.
    fn count(&self) -> u64
        ensures { result ≡ (now self.now).faults };
}
