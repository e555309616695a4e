// Why there is no isolated project file.
ghost use Rattle.std.specs.Prelude.{◌≡◌};
ghost use Rattle.addr_isolate.specs.declared.error.IsolateErr.TheVariants as errors;

use addr_base::NoMemory;
use addr_project::Limit;

/// Why there is no isolated project file.
#[derive(Debug, Drop)]
pub enum IsolateErr {
    /// The first limit that the isolated project would pass, `groups` or `entries`, and the whole count.
    TooLarge { limit: Limit, count: u64 },
    /// The bytes aren't those of the project's own file.
    Broken,
    /// The depot failed; its count of faults rose.
    DepotFault,
    NoMemory,
}

impl From<NoMemory> for IsolateErr {
    ghost from_gives = { λ _ e. e ≡ errors.NoMemory };

    fn from(_: NoMemory) -> Self {
        IsolateErr::NoMemory
    }
}
