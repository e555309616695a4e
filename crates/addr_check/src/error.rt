// Why no answer is given of what an update would move.
ghost use Rattle.std.specs.Prelude.{◌≡◌};
ghost use Rattle.addr_check.specs.declared.error.CheckErr.TheVariants as checks;

use addr_base::{NoMemory, Text};
use addr_catalog::CatErr;
use addr_held::HeldErr;
use addr_pack::PlanErr;
use addr_project::{Limit, ProjectErr};
use addr_update::NotIntact;

/// Why it isn't told what an update would move. The first cause in this order is told, but that the catalogue's file is looked for
/// before its faults and the state's file after them.
#[derive(Debug, Drop)]
pub enum CheckErr {
    /// The folder is no project, for this fault; it isn't want of memory and no fault of the depot.
    Project(ProjectErr),
    /// The folder has no catalogue, or not the state that this names: the file's whole name in the depot.
    NoRelease(Text),
    /// The catalogue's first fault; it isn't want of memory.
    BadCatalogue(CatErr),
    /// The state, or the first of its bundles that isn't as the state says: the file's name below the folder, and what is
    /// first wrong with it.
    BadRelease { file: Text, why: NotIntact },
    /// A bundle of the project's own placement has too long a name: the limit, and the name's length in bytes.
    TooLarge { limit: Limit, count: u64 },
    /// The depot failed; its count of faults rose.
    DepotFault,
    NoMemory,
}

impl From<NoMemory> for CheckErr {
    ghost from_gives = { λ _ e. e ≡ checks.NoMemory };

    fn from(_: NoMemory) -> Self {
        CheckErr::NoMemory
    }
}

impl From<ProjectErr> for CheckErr {
    ghost use Rattle.addr_check.specs.FromCauses.{of_project};

    ghost from_gives = { λ cause e. e ≡ of_project cause };

    fn from(cause: ProjectErr) -> Self {
        match cause {
            ProjectErr::NoMemory => CheckErr::NoMemory,
            ProjectErr::DepotFault => CheckErr::DepotFault,
            fault => CheckErr::Project(fault),
        }
    }
}

impl From<HeldErr> for CheckErr {
    ghost use Rattle.addr_check.specs.FromCauses.{of_held};

    ghost from_gives = { λ cause e. e ≡ of_held cause };

    fn from(cause: HeldErr) -> Self {
        match cause {
            HeldErr::NoRelease(name) => CheckErr::NoRelease(name),
            HeldErr::BadCatalogue(fault) => CheckErr::BadCatalogue(fault),
            HeldErr::BadRelease { file, why } => CheckErr::BadRelease { file, why },
            HeldErr::DepotFault => CheckErr::DepotFault,
            HeldErr::NoMemory => CheckErr::NoMemory,
        }
    }
}

impl From<PlanErr> for CheckErr {
    ghost use Rattle.addr_check.specs.FromCauses.{of_plan};

    ghost from_gives = { λ cause e. e ≡ of_plan cause };

    fn from(cause: PlanErr) -> Self {
        match cause {
            PlanErr::NameTooLong { row: _, length } => CheckErr::TooLarge {
                limit: Limit::BundleName,
                count: length,
            },
            PlanErr::NoMemory => CheckErr::NoMemory,
        }
    }
}
