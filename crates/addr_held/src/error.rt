// Why the release that an update starts from isn't opened.
ghost use Rattle.std.specs.Prelude.{◌≡◌};
ghost use Rattle.addr_held.specs.declared.error.HeldErr.TheVariants as errors;

use addr_base::{DepotErr, NoMemory, Text};
use addr_catalog::CatErr;
use addr_update::NotIntact;

/// Why a release isn't opened. The first cause in the order of reading is told: the catalogue, the state that it names, and
/// the state's bundles by name.
#[derive(Debug, Drop)]
pub enum HeldErr {
    /// The folder has no catalogue, or not the state that this names: the file's whole name in the depot.
    NoRelease(Text),
    /// The catalogue's first fault; it isn't want of memory.
    BadCatalogue(CatErr),
    /// The state, or the first of its bundles that isn't as the state says: the file's name below the folder, and what is
    /// first wrong with it.
    BadRelease { file: Text, why: NotIntact },
    /// The depot failed; its count of faults rose.
    DepotFault,
    NoMemory,
}

impl From<NoMemory> for HeldErr {
    ghost from_gives = { λ _ e. e ≡ errors.NoMemory };

    fn from(_: NoMemory) -> Self {
        HeldErr::NoMemory
    }
}

impl From<DepotErr> for HeldErr {
    ghost use Rattle.addr_held.specs.FromDepot.{of_read};

    ghost from_gives = { λ cause e. e ≡ of_read cause };

    fn from(cause: DepotErr) -> Self {
        match cause {
            DepotErr::Fault => HeldErr::DepotFault,
            DepotErr::NoMemory => HeldErr::NoMemory,
        }
    }
}
