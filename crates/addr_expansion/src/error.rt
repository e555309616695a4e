// Why a text could not be expanded.
ghost use Rattle.std.specs.Prelude.{◌≡◌};
ghost use Rattle.addr_expansion.specs.declared.error.ExpandErr.TheVariants as expanding;

use addr_base::NoMemory;

/// Why a text could not be expanded, in the order of the tests.
#[derive(Clone, Copy, Debug, PartialEq, Eq)]
pub enum ExpandErr {
    /// The text leads to a name that no variable has, or to an open bracket.
    BadVariable,
    /// The text leads to a variable that leads to itself.
    Cycle,
    /// The expanded text would have this length in bytes, or at least the greatest u64.
    TooLong(u64),
    NoMemory,
}

impl From<NoMemory> for ExpandErr {
    ghost from_gives = { λ _ e. e ≡ expanding.NoMemory };

    fn from(_: NoMemory) -> Self {
        ExpandErr::NoMemory
    }
}
