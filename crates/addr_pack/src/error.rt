// Why a project has no plan.
ghost use Rattle.std.specs.Prelude.{◌≡◌};
ghost use Rattle.addr_pack.specs.declared.error.PlanErr.TheVariants as errors;

use addr_base::NoMemory;

/// Why a project has no placement.
#[derive(Clone, Copy, Debug, PartialEq, Eq)]
pub enum PlanErr {
    /// A bundle's name would have more than 200 bytes: the least entry that stands in such a bundle, counted from 0, and the
    /// name's length in bytes.
    NameTooLong { row: u32, length: u64 },
    NoMemory,
}

impl From<NoMemory> for PlanErr {
    ghost from_gives = { λ _ e. e ≡ errors.NoMemory };

    fn from(_: NoMemory) -> Self {
        PlanErr::NoMemory
    }
}
