// Why a folder is no project, in the order in which the tests go: all rows of all tables for one test, then the next test.
// Asset files come last, so that no file is read for a project file that is wrong by itself.
ghost use Rattle.std.specs.Prelude.{◌≡◌};
ghost use Rattle.addr_project.specs.declared.error.ProjectErr.TheVariants as faults;
ghost use Rattle.addr_project.specs.DepotCauses.{of_depot};
ghost use Rattle.addr_project.specs.Printed.{fault_number, fault_place, fault_row};

use crate::limit::{Limit, Part};
use addr_base::{DepotErr, NoMemory};
use std::fmt;

/// The first test that a folder breaks. Rows count from 0; tables come in the order of `Part`.
#[derive(Clone, Copy, Debug, PartialEq, Eq)]
pub enum ProjectErr {
    /// The folder has no `project.toml`.
    NoProject,
    /// The file is no TOML document.
    BadToml,
    /// A member is absent without a default, of another kind, or outside its values; or a variable repeats a name.
    BadField { table: Part, row: u32 },
    /// A count is above its limit; the count is the whole one.
    OverLimit { which: Limit, count: u64 },
    /// An asset or an entry repeats an earlier row's GUID.
    DuplicateGuid { table: Part, row: u32 },
    DuplicateGroup { row: u32 },
    /// A group has the name that updates take for the entries that they move.
    ReservedGroup { row: u32 },
    UnknownGroup { row: u32 },
    /// A reference of an asset, or an entry's GUID, names no asset.
    UnknownRef { table: Part, row: u32 },
    /// A text of the profile or a variable's value leads to a name that no variable has, or to an open bracket.
    BadVariable { table: Part, row: u32 },
    /// The variable's value leads to a variable that leads to itself.
    VariableCycle { row: u32 },
    /// The asset's file isn't in the depot.
    MissingFile { row: u32 },
    /// The depot failed; its count of faults rose.
    DepotFault,
    NoMemory,
}

impl ProjectErr {
    /// The number by which programs print the fault.
    pub fn number(&self) -> u8
        ensures { result ≡ fault_number self.now }
    {
        match self {
            ProjectErr::NoMemory => 0,
            ProjectErr::NoProject => 1,
            ProjectErr::BadToml => 2,
            ProjectErr::BadField { .. } => 3,
            ProjectErr::DuplicateGuid { .. } => 4,
            ProjectErr::DuplicateGroup { .. } => 5,
            ProjectErr::UnknownGroup { .. } => 6,
            ProjectErr::UnknownRef { .. } => 7,
            ProjectErr::MissingFile { .. } => 8,
            ProjectErr::BadVariable { .. } => 9,
            ProjectErr::VariableCycle { .. } => 10,
            ProjectErr::OverLimit { .. } => 11,
            ProjectErr::ReservedGroup { .. } => 12,
            ProjectErr::DepotFault => 13,
        }
    }

    /// The table of the fault or the limit that is passed, and the row or the count.
    fn place(&self) -> (&'static str, u64)
        ensures place { result.0.now ≡ fault_place self.now }
        ensures row { result.1 ≡ fault_row self.now }
    {
        match self {
            ProjectErr::BadField { table, row }
            | ProjectErr::DuplicateGuid { table, row }
            | ProjectErr::UnknownRef { table, row }
            | ProjectErr::BadVariable { table, row } => (table.text(), *row as u64),
            ProjectErr::OverLimit { which, count } => (which.text(), *count),
            ProjectErr::DuplicateGroup { row } | ProjectErr::ReservedGroup { row } => {
                (Part::Group.text(), *row as u64)
            }
            ProjectErr::UnknownGroup { row } => (Part::Entry.text(), *row as u64),
            ProjectErr::VariableCycle { row } => (Part::Variable.text(), *row as u64),
            ProjectErr::MissingFile { row } => (Part::Asset.text(), *row as u64),
            _ => ("-", 0),
        }
    }
}

impl fmt::Display for ProjectErr {
    ghost use Rattle.std.specs.Prelude.{Some};
    ghost use Rattle.addr_project.specs.Printed.{fault_text};

    ghost output = { λ e. Some (fault_text e) };

    #[tactic(auto, unfolding(crate::specs::Printed::fault_text))]
    fn fmt<W: fmt::Write>(&self, f: &mut fmt::Formatter<W>) -> fmt::Result {
        let number = self.number();
        let (place, row) = self.place();
        write!(f, "{number} {place} {row}")
    }
}

impl From<NoMemory> for ProjectErr {
    ghost from_gives = { λ _ e. e ≡ faults.NoMemory };

    fn from(_: NoMemory) -> Self {
        ProjectErr::NoMemory
    }
}

impl From<DepotErr> for ProjectErr {
    ghost from_gives = { λ cause e. e ≡ of_depot cause };

    fn from(cause: DepotErr) -> Self {
        match cause {
            DepotErr::Fault => ProjectErr::DepotFault,
            DepotErr::NoMemory => ProjectErr::NoMemory,
        }
    }
}
