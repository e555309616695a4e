// Where bytes go to. A sink that tells what was written tells it as one list from the start on.
ghost use Rattle.std.specs.Prelude.{◌≡◌};
ghost use Rattle.addr_base.specs.Faults.{HasCause, one_more};
ghost use Rattle.addr_base.specs.Streams.{Stream, Writes};

use crate::memory::Failed;

/// A stream that bytes are put to.
pub trait Sink {
    /// What was put, by how many calls, and how often the sink has failed; at its greatest value a count stands still.
    ghost now: { Self → Stream };

    /// Appends all bytes, or a prefix of them where the sink failed.
    fn put(&mut self, bytes: &[u8]) -> Result<(), Failed>
        ensures bytes { Writes (now self.old).written result bytes.now (now self.new).written }
        ensures once { (now self.new).puts ≡ one_more (now self.old).puts }
        ensures cause { HasCause (now self.old).faults (now self.new).faults result };
}
