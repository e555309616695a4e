// Why a command is refused. One enum stands for all commands; the errors of the layers below become its variants.
ghost use Rattle.std.specs.Prelude.{◌≡◌, IfOk, string_bytes};
ghost use Rattle.addr_cli.specs.Refusals.{refusal_status, refusal_text};

use crate::status::Status;
use addr_base::{DepotErr, NoMemory, Text};
use addr_locate::RowsErr;
use addr_pack::PlanErr;
use addr_project::{Limit, ProjectErr};
use addr_script::ScriptErr;
use std::alloc::{AllocError, Global};
use std::fmt;

/// Why a command is refused, in the order of the exit statuses.
#[derive(Drop)]
pub enum Refusal {
    NoMemory,
    /// The words are no command's.
    Usage,
    /// The depot failed.
    Depot,
    /// The first test that a project folder breaks.
    BadProject(ProjectErr),
    /// No file has the name with this token.
    NoFile(Text),
    /// The number of the first fault of a catalogue.
    BadCatalogue(u8),
    /// The first bad line of the rows.
    BadRows(u32),
    /// The token of the name of a file that is no bundle, and the number of its first fault.
    BadBundle(Text, u8),
    /// The first bad line of the script.
    BadScript(u32),
    /// A limit that is passed, and the whole count.
    TooLarge(Limit, u64),
}

impl Refusal {
    pub fn status(&self) -> Status
        ensures { result.0 ≡ refusal_status self.now }
    {
        match self {
            Refusal::NoMemory => Status(1),
            Refusal::Usage => Status(2),
            Refusal::Depot => Status(3),
            Refusal::BadProject(_) => Status(4),
            Refusal::NoFile(_) => Status(5),
            Refusal::BadCatalogue(_) => Status(7),
            Refusal::BadRows(_) => Status(7),
            Refusal::BadBundle(_, _) => Status(8),
            Refusal::BadScript(_) => Status(9),
            Refusal::TooLarge(_, _) => Status(11),
        }
    }
}

impl fmt::Display for Refusal {
    ghost use Rattle.std.specs.Prelude.{Some};
    ghost use Rattle.addr_cli.specs.Refusals.{refusal_text};

    ghost output = { λ r. Some (refusal_text r) };

    fn fmt<W: fmt::Write>(&self, f: &mut fmt::Formatter<W>) -> fmt::Result {
        match self {
            Refusal::NoMemory => f.write_str("error 1 memory"),
            Refusal::Usage => f.write_str("error 2 usage"),
            Refusal::Depot => f.write_str("error 3 depot"),
            Refusal::BadProject(fault) => write!(f, "error 4 {fault}"),
            Refusal::NoFile(token) => {
                let name = token.as_str();
                write!(f, "error 5 {name}")
            }
            Refusal::BadCatalogue(number) => write!(f, "error 7 {number}"),
            Refusal::BadRows(line) => write!(f, "error 7 line {line}"),
            Refusal::BadBundle(token, number) => {
                let name = token.as_str();
                write!(f, "error 8 {name} unityfs {number}")
            }
            Refusal::BadScript(line) => write!(f, "error 9 {line}"),
            Refusal::TooLarge(which, count) => write!(f, "error 11 {which} {count}"),
        }
    }
}

impl From<NoMemory> for Refusal {
    ghost use Rattle.std.specs.Prelude.{◌≡◌};
    ghost use Rattle.addr_cli.specs.declared.refusal.Refusal.TheVariants as refusals;

    ghost from_gives = { λ _ r. r ≡ refusals.NoMemory };

    fn from(_: NoMemory) -> Self {
        Refusal::NoMemory
    }
}

impl From<DepotErr> for Refusal {
    ghost use Rattle.std.specs.Prelude.{◌≡◌};
    ghost use Rattle.addr_cli.specs.Refusals.{from_depot};

    ghost from_gives = { λ e r. r ≡ from_depot e };

    fn from(e: DepotErr) -> Self {
        match e {
            DepotErr::Fault => Refusal::Depot,
            DepotErr::NoMemory => Refusal::NoMemory,
        }
    }
}

impl From<PlanErr> for Refusal {
    ghost use Rattle.std.specs.Prelude.{◌≡◌};
    ghost use Rattle.addr_cli.specs.Refusals.{from_plan};

    ghost from_gives = { λ e r. r ≡ from_plan e };

    fn from(e: PlanErr) -> Self {
        match e {
            PlanErr::NameTooLong { row: _, length } => {
                Refusal::TooLarge(Limit::BundleName, length)
            }
            PlanErr::NoMemory => Refusal::NoMemory,
        }
    }
}

impl From<RowsErr> for Refusal {
    ghost use Rattle.std.specs.Prelude.{◌≡◌};
    ghost use Rattle.addr_cli.specs.Refusals.{from_rows};

    ghost from_gives = { λ e r. r ≡ from_rows e };

    fn from(e: RowsErr) -> Self {
        match e {
            RowsErr::Line(line) => Refusal::BadRows(line),
            RowsErr::NoMemory => Refusal::NoMemory,
        }
    }
}

impl From<ScriptErr> for Refusal {
    ghost use Rattle.std.specs.Prelude.{◌≡◌};
    ghost use Rattle.addr_cli.specs.Refusals.{from_script};

    ghost from_gives = { λ e r. r ≡ from_script e };

    fn from(e: ScriptErr) -> Self {
        match e {
            ScriptErr::Line(line) => Refusal::BadScript(line),
            ScriptErr::NoMemory => Refusal::NoMemory,
        }
    }
}
