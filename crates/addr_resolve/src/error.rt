// Why a bundle of a catalogue isn't opened, and why a key isn't resolved.
ghost use Rattle.std.specs.Prelude.{◌≡◌};
ghost use Rattle.addr_resolve.specs.declared.error.OpenErr.TheVariants as errors;
ghost use Rattle.addr_resolve.specs.declared.error.ResolveErr.TheVariants as resolve;

use addr_base::{DepotErr, Guid, NoMemory, Text};
use addr_cab::CabErr;
use addr_catalog::CatErr;
use addr_unityfs::FsErr;

/// What is wrong with a bundle.
#[derive(Debug, Drop)]
pub enum BundleFault {
    /// No file has the bundle's key, neither among the local ones nor among the remote ones.
    Missing,
    /// The file's first fault as a bundle.
    Fs(FsErr),
    /// The first fault of the file's table of objects.
    Cab(CabErr),
    /// The least GUID that the walk from a row doesn't find; opening a bundle never answers it.
    Lost(Guid),
}

/// Why the bundles of a catalogue aren't opened.
#[derive(Debug, Drop)]
pub enum OpenErr {
    /// The first bundle whose file is missing or can't be read, by its key.
    Bad { key: Text, why: BundleFault },
    /// The depot failed; its count of faults rose.
    DepotFault,
    NoMemory,
}

impl From<NoMemory> for OpenErr {
    ghost from_gives = { λ _ e. e ≡ errors.NoMemory };

    fn from(_: NoMemory) -> Self {
        OpenErr::NoMemory
    }
}

impl From<DepotErr> for OpenErr {
    ghost use Rattle.addr_resolve.specs.FromDepot.{of_depot};

    ghost from_gives = { λ cause e. e ≡ of_depot cause };

    fn from(cause: DepotErr) -> Self {
        match cause {
            DepotErr::Fault => OpenErr::DepotFault,
            DepotErr::NoMemory => OpenErr::NoMemory,
        }
    }
}

/// Why a key isn't resolved. The first cause in this order is told.
#[derive(Debug, Drop)]
pub enum ResolveErr {
    /// The folder has no catalogue, which is told by its whole name in the depot.
    NoRelease(Text),
    /// The catalogue's first fault; it isn't want of memory.
    BadCatalogue(CatErr),
    /// No asset row has the key.
    NoKey,
    /// The first bundle, by number, whose file is missing or can't be read; or, of the first row that fails, the bundle of
    /// its first dependency and the least GUID that its walk doesn't find (of a row whose id is no GUID that of zeros).
    BadBundle { key: Text, why: BundleFault },
    /// The depot failed; its count of faults rose.
    DepotFault,
    NoMemory,
}

impl From<NoMemory> for ResolveErr {
    ghost from_gives = { λ _ e. e ≡ resolve.NoMemory };

    fn from(_: NoMemory) -> Self {
        ResolveErr::NoMemory
    }
}

impl From<DepotErr> for ResolveErr {
    ghost use Rattle.addr_resolve.specs.FromDepot.{of_read};

    ghost from_gives = { λ cause e. e ≡ of_read cause };

    fn from(cause: DepotErr) -> Self {
        match cause {
            DepotErr::Fault => ResolveErr::DepotFault,
            DepotErr::NoMemory => ResolveErr::NoMemory,
        }
    }
}

impl From<OpenErr> for ResolveErr {
    ghost use Rattle.addr_resolve.specs.FromDepot.{of_open};

    ghost from_gives = { λ cause e. e ≡ of_open cause };

    fn from(cause: OpenErr) -> Self {
        match cause {
            OpenErr::Bad { key, why } => ResolveErr::BadBundle { key, why },
            OpenErr::DepotFault => ResolveErr::DepotFault,
            OpenErr::NoMemory => ResolveErr::NoMemory,
        }
    }
}
