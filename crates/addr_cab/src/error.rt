// Why the nodes of a bundle hold no asset table. Of several faults the first by the order of tests counts, which
// `specs/Faults.antt` states. A place counts in bytes from the start of the table.
ghost use Rattle.std.specs.Prelude.{◌≡◌};
ghost use Rattle.addr_cab.specs.Numbers.{fault_number};

use addr_base::NoMemory;
use std::alloc::AllocFailed;

/// What is wrong with an asset table.
#[derive(Clone, Copy, Debug, PartialEq, Eq, Drop)]
pub enum CabErr {
    /// The field that begins at this place does not fit.
    Short { at: u64 },
    /// The table does not begin with `ADT1`.
    Magic,
    /// The outside bundle or GUID at this place is not above the one before it.
    Order { at: u64 },
    /// The offset at this place is not where the objects before end, the length at this place passes the data, or, at
    /// the table's end, the objects are shorter than the data.
    Range { at: u64 },
    /// The home at this place is of no outside bundle, the reference at this place leads to no object, or nothing
    /// names the outside bundle at this place.
    Ref { at: u64 },
    /// Bytes are left from this place on.
    Trailing { at: u64 },
    /// The bundle has not just two nodes with the paths of a table and of its data.
    Nodes,
    /// Memory was refused; the nodes may hold a table or not.
    NoMemory,
}

impl CabErr {
    /// The number by which programs print the fault, from 1 on in the order of the variants.
    pub fn number(&self) -> Option<u8>
        ensures { result ≡ fault_number self.now }
    {
        match self {
            CabErr::Short { .. } => Some(1),
            CabErr::Magic => Some(2),
            CabErr::Order { .. } => Some(3),
            CabErr::Range { .. } => Some(4),
            CabErr::Ref { .. } => Some(5),
            CabErr::Trailing { .. } => Some(6),
            CabErr::Nodes => Some(7),
            CabErr::NoMemory => None,
        }
    }
}

impl From<NoMemory> for CabErr {
    ghost use Rattle.addr_cab.specs.declared.error.CabErr.TheVariants as errors;

    ghost from_gives = { λ _ e. e ≡ errors.NoMemory };

    fn from(_: NoMemory) -> CabErr {
        CabErr::NoMemory
    }
}

impl<T: Drop> From<AllocFailed<T>> for CabErr {
    ghost use Rattle.addr_cab.specs.declared.error.CabErr.TheVariants as errors;

    ghost from_gives = { λ _ e. e ≡ errors.NoMemory };

    fn from(_: AllocFailed<T>) -> CabErr {
        CabErr::NoMemory
    }
}
