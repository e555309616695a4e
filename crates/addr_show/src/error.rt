// Why a folder isn't analyzed or isolated.
ghost use Rattle.std.specs.Prelude.{◌≡◌};
ghost use Rattle.addr_show.specs.declared.error.AnalyzeErr.TheVariants as errors;

use addr_base::NoMemory;
use addr_images::LimitErr;
use addr_isolate::IsolateErr;
use addr_project::{Limit, ProjectErr};

/// Why a folder isn't analyzed or isolated.
#[derive(Debug, Drop)]
pub enum AnalyzeErr {
    /// The folder is no project, for this fault; it isn't want of memory and no fault of the depot.
    Project(ProjectErr),
    /// The first limit of a plan that the project passes, or `groups` or `entries` that it would pass isolated, and the whole count.
    TooLarge { limit: Limit, count: u64 },
    /// The depot failed; its count of faults rose.
    DepotFault,
    NoMemory,
}

impl From<NoMemory> for AnalyzeErr {
    ghost from_gives = { λ _ e. e ≡ errors.NoMemory };

    fn from(_: NoMemory) -> Self {
        AnalyzeErr::NoMemory
    }
}

impl From<ProjectErr> for AnalyzeErr {
    ghost use Rattle.addr_show.specs.FromCauses.{of_project};

    ghost from_gives = { λ cause e. e ≡ of_project cause };

    fn from(cause: ProjectErr) -> Self {
        match cause {
            ProjectErr::NoMemory => AnalyzeErr::NoMemory,
            ProjectErr::DepotFault => AnalyzeErr::DepotFault,
            fault => AnalyzeErr::Project(fault),
        }
    }
}

impl From<LimitErr> for AnalyzeErr {
    ghost use Rattle.addr_show.specs.FromCauses.{of_limit};

    ghost from_gives = { λ cause e. e ≡ of_limit cause };

    fn from(cause: LimitErr) -> Self {
        match cause {
            LimitErr::TooLarge { limit, count } => AnalyzeErr::TooLarge { limit, count },
            LimitErr::NoMemory => AnalyzeErr::NoMemory,
        }
    }
}

impl From<IsolateErr> for AnalyzeErr {
    ghost use Rattle.addr_show.specs.FromCauses.{of_isolation};

    ghost from_gives = { λ cause e. e ≡ of_isolation cause };

    /// A project file that changed between its two reads is no project's. No told file does.
    fn from(cause: IsolateErr) -> Self {
        match cause {
            IsolateErr::TooLarge { limit, count } => AnalyzeErr::TooLarge { limit, count },
            IsolateErr::Broken => AnalyzeErr::Project(ProjectErr::NoProject),
            IsolateErr::DepotFault => AnalyzeErr::DepotFault,
            IsolateErr::NoMemory => AnalyzeErr::NoMemory,
        }
    }
}
