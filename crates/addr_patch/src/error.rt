// Why a release isn't updated.
ghost use Rattle.std.specs.Prelude.{◌≡◌};
ghost use Rattle.addr_patch.specs.declared.error.UpdateErr.TheVariants as updates;

use addr_base::{NoMemory, Text};
use addr_build::PutErr;
use addr_catalog::CatErr;
use addr_check::CheckErr;
use addr_images::LimitErr;
use addr_project::{Limit, ProjectErr};
use addr_update::NotIntact;

/// Why a release isn't updated. The first cause in this order is told, but that the catalogue's file is looked for before its
/// faults and the state's file after them. Of the first five the depot is as it was before.
#[derive(Debug, Drop)]
pub enum UpdateErr {
    /// The folder is no project, for this fault; it isn't want of memory and no fault of the depot.
    Project(ProjectErr),
    /// The folder has no catalogue, or not the state that this names: the file's whole name in the depot.
    NoRelease(Text),
    /// The catalogue's first fault; it isn't want of memory.
    BadCatalogue(CatErr),
    /// The state, or the first of its bundles that isn't as the state says: the file's name below the folder, and what is
    /// first wrong with it.
    BadRelease { file: Text, why: NotIntact },
    /// The first limit that the update passes, and the whole count.
    TooLarge { limit: Limit, count: u64 },
    /// A file with other bytes has the name, which is told from the folder on. The files before it were put.
    NameTaken(Text),
    /// The depot failed; its count of faults rose.
    DepotFault,
    NoMemory,
}

impl From<NoMemory> for UpdateErr {
    ghost from_gives = { λ _ e. e ≡ updates.NoMemory };

    fn from(_: NoMemory) -> Self {
        UpdateErr::NoMemory
    }
}

impl From<CheckErr> for UpdateErr {
    ghost use Rattle.addr_patch.specs.FromCauses.{of_check};

    ghost from_gives = { λ cause e. e ≡ of_check cause };

    fn from(cause: CheckErr) -> Self {
        match cause {
            CheckErr::Project(fault) => UpdateErr::Project(fault),
            CheckErr::NoRelease(name) => UpdateErr::NoRelease(name),
            CheckErr::BadCatalogue(fault) => UpdateErr::BadCatalogue(fault),
            CheckErr::BadRelease { file, why } => UpdateErr::BadRelease { file, why },
            CheckErr::TooLarge { limit, count } => UpdateErr::TooLarge { limit, count },
            CheckErr::DepotFault => UpdateErr::DepotFault,
            CheckErr::NoMemory => UpdateErr::NoMemory,
        }
    }
}

impl From<LimitErr> for UpdateErr {
    ghost use Rattle.addr_patch.specs.FromCauses.{of_limit};

    ghost from_gives = { λ cause e. e ≡ of_limit cause };

    fn from(cause: LimitErr) -> Self {
        match cause {
            LimitErr::TooLarge { limit, count } => UpdateErr::TooLarge { limit, count },
            LimitErr::NoMemory => UpdateErr::NoMemory,
        }
    }
}

impl From<PutErr> for UpdateErr {
    ghost use Rattle.addr_patch.specs.FromCauses.{of_put};

    ghost from_gives = { λ cause e. e ≡ of_put cause };

    fn from(cause: PutErr) -> Self {
        match cause {
            PutErr::Taken(name) => UpdateErr::NameTaken(name),
            PutErr::Fault => UpdateErr::DepotFault,
            PutErr::NoMemory => UpdateErr::NoMemory,
        }
    }
}
