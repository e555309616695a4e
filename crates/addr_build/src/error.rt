// Why files aren't put, and why a folder isn't built.
ghost use Rattle.std.specs.Prelude.{◌≡◌};
ghost use Rattle.addr_build.specs.declared.error.BuildErr.TheVariants as build;
ghost use Rattle.addr_build.specs.declared.error.PutErr.TheVariants as errors;

use addr_base::{DepotErr, NoMemory, Text};
use addr_images::LimitErr;
use addr_project::{Limit, ProjectErr};

/// Why a file of a release wasn't put.
#[derive(Debug, Drop)]
pub enum PutErr {
    /// A file with other bytes has the name, which is told from the folder on.
    Taken(Text),
    /// The depot failed; its count of faults rose.
    Fault,
    NoMemory,
}

impl From<NoMemory> for PutErr {
    ghost from_gives = { λ _ e. e ≡ errors.NoMemory };

    fn from(_: NoMemory) -> Self {
        PutErr::NoMemory
    }
}

impl From<DepotErr> for PutErr {
    ghost use Rattle.addr_build.specs.within.FromDepot.{of_depot};

    ghost from_gives = { λ cause e. e ≡ of_depot cause };

    fn from(cause: DepotErr) -> Self {
        match cause {
            DepotErr::Fault => PutErr::Fault,
            DepotErr::NoMemory => PutErr::NoMemory,
        }
    }
}

/// Why a folder isn't built. Of the first two the depot is as it was before.
#[derive(Debug, Drop)]
pub enum BuildErr {
    /// The folder is no project, for this fault; it isn't want of memory and no fault of the depot.
    Project(ProjectErr),
    /// The first limit that the project passes, and the whole count.
    TooLarge { limit: Limit, count: u64 },
    /// A file with other bytes has the name, which is told from the folder on. The files before it were put.
    NameTaken(Text),
    /// The depot failed; its count of faults rose.
    DepotFault,
    NoMemory,
}

impl From<NoMemory> for BuildErr {
    ghost from_gives = { λ _ e. e ≡ build.NoMemory };

    fn from(_: NoMemory) -> Self {
        BuildErr::NoMemory
    }
}

impl From<ProjectErr> for BuildErr {
    ghost use Rattle.addr_build.specs.within.FromCauses.{of_project};

    ghost from_gives = { λ cause e. e ≡ of_project cause };

    fn from(cause: ProjectErr) -> Self {
        match cause {
            ProjectErr::NoMemory => BuildErr::NoMemory,
            ProjectErr::DepotFault => BuildErr::DepotFault,
            fault => BuildErr::Project(fault),
        }
    }
}

impl From<LimitErr> for BuildErr {
    ghost use Rattle.addr_build.specs.within.FromCauses.{of_limit};

    ghost from_gives = { λ cause e. e ≡ of_limit cause };

    fn from(cause: LimitErr) -> Self {
        match cause {
            LimitErr::TooLarge { limit, count } => BuildErr::TooLarge { limit, count },
            LimitErr::NoMemory => BuildErr::NoMemory,
        }
    }
}

impl From<PutErr> for BuildErr {
    ghost use Rattle.addr_build.specs.within.FromCauses.{of_put};

    ghost from_gives = { λ cause e. e ≡ of_put cause };

    fn from(cause: PutErr) -> Self {
        match cause {
            PutErr::Taken(name) => BuildErr::NameTaken(name),
            PutErr::Fault => BuildErr::DepotFault,
            PutErr::NoMemory => BuildErr::NoMemory,
        }
    }
}
