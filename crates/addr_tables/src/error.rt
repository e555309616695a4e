// Why tables can't be read: the first test that fails, in the order of docs/formats/keys-and-tables.md.
ghost use Rattle.std.specs.Prelude.{◌≡◌};
ghost use Rattle.addr_tables.specs.declared.error.TableErr.TheVariants as errors;

use addr_base::NoMemory;
use std::alloc::{AllocError, AllocFailed};

/// The first test that fails, or that memory was refused. `which` is 0 for the key table, 1 bucket, 2 entry, 3 extra.
#[derive(Clone, Copy, Debug, PartialEq, Eq)]
pub enum TableErr {
    /// The text isn't an encoding in base64 with padding.
    Base64 { which: u8 },
    /// A number is missing, or a count is negative.
    Short { which: u8 },
    /// There are not as many buckets as keys.
    Counts { keys: u32, buckets: u32 },
    /// A field of an entry names nothing.
    Index { entry: u32, field: u8 },
    /// No key can be read at the bucket's offset, or an earlier bucket has that key.
    Key { bucket: u32 },
    /// Bytes stand after the last row.
    Trailing { which: u8 },
    /// A number in the bucket isn't that of an entry.
    Place { bucket: u32 },
    /// No key can be read at the entry's offset of extra data.
    Extra { entry: u32 },
    NoMemory,
}

impl From<NoMemory> for TableErr {
    ghost from_gives = { λ _ e. e ≡ errors.NoMemory };

    fn from(_: NoMemory) -> Self {
        TableErr::NoMemory
    }
}

impl From<AllocError> for TableErr {
    ghost from_gives = { λ _ e. e ≡ errors.NoMemory };

    fn from(_: AllocError) -> Self {
        TableErr::NoMemory
    }
}

impl<T: Drop> From<AllocFailed<T>> for TableErr {
    ghost from_gives = { λ _ e. e ≡ errors.NoMemory };

    fn from(_: AllocFailed<T>) -> Self {
        TableErr::NoMemory
    }
}
