// Why bytes are no catalogue: the first fault. The document comes first, then its members by number, then the tables, then
// the entries one by one, and after all of these the dependencies of the assets.
ghost use Rattle.std.specs.Prelude.{◌≡◌};
ghost use Rattle.addr_catalog.specs.declared.error.CatErr.TheVariants as faults;
ghost use Rattle.addr_catalog.specs.Numbers.{error_number};
ghost use Rattle.addr_catalog.specs.FaultsBelow.{of_document, of_table};

use addr_base::NoMemory;
use addr_catalog_json::DocErr;
use addr_tables::TableErr;

/// The first fault, or that memory was refused. Entries count from 0.
#[derive(Clone, Copy, Debug)]
pub enum CatErr {
    /// The bytes are no JSON in UTF-8.
    Json,
    /// A member is absent, of another kind or outside its values. The numbers are those of docs/formats/catalogue.md.
    Member { which: u8 },
    /// The four tables can't be read: their first fault.
    Table(TableErr),
    /// The entry's provider is that of neither bundles nor assets.
    Provider { entry: u32 },
    /// The extra data of a bundle has no options.
    Options { entry: u32 },
    /// An asset depends on no bundle.
    Depends { entry: u32 },
    NoMemory,
}

impl CatErr {
    /// The number by which programs print the fault; 0 for want of memory.
    pub fn number(&self) -> u8
        ensures { result ≡ error_number self.now }
    {
        match self {
            CatErr::NoMemory => 0,
            CatErr::Json => 1,
            CatErr::Member { .. } => 2,
            CatErr::Table(_) => 3,
            CatErr::Provider { .. } => 4,
            CatErr::Options { .. } => 5,
            CatErr::Depends { .. } => 6,
        }
    }
}

impl From<NoMemory> for CatErr {
    ghost from_gives = { λ _ e. e ≡ faults.NoMemory };

    fn from(_: NoMemory) -> Self {
        CatErr::NoMemory
    }
}

impl From<DocErr> for CatErr {
    ghost from_gives = { λ fault e. e ≡ of_document fault };

    fn from(fault: DocErr) -> Self {
        match fault {
            DocErr::Json => CatErr::Json,
            DocErr::Member { which } => CatErr::Member { which },
            DocErr::NoMemory => CatErr::NoMemory,
        }
    }
}

impl From<TableErr> for CatErr {
    ghost from_gives = { λ fault e. e ≡ of_table fault };

    fn from(fault: TableErr) -> Self {
        match fault {
            TableErr::NoMemory => CatErr::NoMemory,
            _ => CatErr::Table(fault),
        }
    }
}
