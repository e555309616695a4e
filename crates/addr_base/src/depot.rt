// A file store whose put is atomic: what the builder writes to and every reader reads from.
ghost use Rattle.std.specs.Prelude.{◌≡◌, ◌<◌, ◌^◌, IfOk, IfSome, vec_len};
ghost use Rattle.std.specs.Option.{option_map};
ghost use Rattle.addr_base.specs.Files.{Store, file_at, FaultRose, PutsAt, SameStore};
ghost use Rattle.addr_base.specs.declared.depot.DepotErr.TheVariants.{NoMemory as DepotErrNoMemory};

use crate::memory;
use std::alloc::{AllocError, AllocFailed, Global};

/// Why a depot's call gave no answer.
#[derive(Clone, Copy, Debug, PartialEq, Eq)]
pub enum DepotErr {
    /// The depot failed, or the file is too long to hold; its count of faults rose.
    Fault,
    NoMemory,
}

impl From<memory::NoMemory> for DepotErr {
    ghost from_gives = { λ _ e. e ≡ DepotErrNoMemory };

    fn from(_: memory::NoMemory) -> Self {
        DepotErr::NoMemory
    }
}

/// A store of whole files under names whose parts stand between `/`. Moments pass at puts alone, since nothing else changes
/// a file.
pub trait Depot {
    /// The files now and at each moment that has passed, and how often the depot has failed; at its greatest value the
    /// count stands still.
    ghost now: { Self → Store };

    /// The file with that name, or None where no file has it. A file of 2^32 bytes or more is a fault.
    fn read(&mut self, alloc: Global, name: &str) -> Result<Option<Vec<u8>>, DepotErr>
        ensures content { IfOk result
            (λ found. IfSome (now self.old).files (λ fs. option_map (λ v. v.items) found ≡ file_at name.now fs)) }
        ensures small { IfOk result (λ found. IfSome found (λ v. vec_len v < 2 ^ 32)) }
        ensures same { SameStore (now self.old) (now self.new) }
        ensures cause { FaultRose (now self.old).faults (now self.new).faults result };

    /// Writes the whole file at once, in place of one with the same name: at each moment since the start of the call the
    /// file is the old one or the new one.
    fn put(&mut self, alloc: Global, name: &str, bytes: &[u8]) -> Result<(), DepotErr>
        ensures moments { PutsAt name.now bytes.now (now self.old) (now self.new) result }
        ensures cause { FaultRose (now self.old).faults (now self.new).faults result };
}
