// Why no key could be read: the first place that is wrong decides, from the left to the right.
ghost use Rattle.std.specs.Prelude.{◌≡◌};
ghost use Rattle.addr_keys.specs.declared.error.KeyErr.TheVariants as errors;

use addr_base::NoMemory;
use std::alloc::AllocError;

/// What is wrong at the first wrong place, or that memory was refused.
#[derive(Clone, Copy, Debug, PartialEq, Eq)]
pub enum KeyErr {
    /// A byte of the object is missing, also where the start is past the end.
    Short,
    /// No kind has this number.
    Kind(u8),
    /// A byte above 0x7f stands in an ASCII text.
    NotAscii,
    /// A UTF-16 text has an odd number of bytes, or a surrogate without its partner.
    Surrogate,
    /// A length is below zero.
    Negative,
    NoMemory,
}

impl From<NoMemory> for KeyErr {
    ghost from_gives = { λ _ e. e ≡ errors.NoMemory };

    fn from(_: NoMemory) -> Self {
        KeyErr::NoMemory
    }
}

impl From<AllocError> for KeyErr {
    ghost from_gives = { λ _ e. e ≡ errors.NoMemory };

    fn from(_: AllocError) -> Self {
        KeyErr::NoMemory
    }
}
