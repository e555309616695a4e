// Opening the release that an update starts from.
ghost use Rattle.std.specs.Prelude.{◌≡◌, ◌<◌, ◌^◌, length, IfOk, IfSome};
ghost use Rattle.addr_base.specs.Files.{SameStore};
ghost use Rattle.addr_catalog.specs.Catalogue.{catalogue_read};
ghost use Rattle.addr_held.specs.Opening.{HeldRose, OpensRelease};
ghost use Rattle.addr_held.specs.within.Steps.{ReadsCatalogue};
ghost use Rattle.addr_state.specs.Sound.{IsSound};

use crate::bundles::open_bundles;
use crate::error::HeldErr;
use crate::naming::path_of;
use crate::release::Release;
use crate::states::read_named;
use addr_base::{Depot, NoMemory};
use addr_catalog::{CatErr, Catalogue, read_catalog};
use std::alloc::Global;

/// The catalogue that bytes stand for, or its first fault.
fn read_bytes(alloc: Global, bytes: &[u8]) -> Result<Result<Catalogue, CatErr>, NoMemory>
    ensures { IfOk result (λ read. catalogue_read bytes.now ≡ read) }
{
    match read_catalog(alloc, bytes) {
        Ok(catalogue) => Ok(Ok(catalogue)),
        Err(CatErr::NoMemory) => Err(NoMemory),
        Err(fault) => Ok(Err(fault)),
    }
}

/// The catalogue of a folder.
fn read_catalogue<D: Depot>(
    alloc: Global,
    depot: &mut D,
    folder: &str,
) -> Result<Catalogue, HeldErr>
    ensures reads { IfSome (D.now depot.old).files (λ files. ReadsCatalogue files folder.now result) }
    ensures same { SameStore (D.now depot.old) (D.now depot.new) }
    ensures cause { HeldRose (D.now depot.old).faults (D.now depot.new).faults result }
{
    let path = path_of(alloc, folder, "remote/catalog_main.json")?;
    match depot.read(alloc, path.as_str())? {
        None => Err(HeldErr::NoRelease(path)),
        Some(bytes) => match read_bytes(alloc, bytes.as_slice())? {
            Ok(catalogue) => Ok(catalogue),
            Err(fault) => Err(HeldErr::BadCatalogue(fault)),
        },
    }
}

/// The release of a folder as it was last fully built, with its present catalogue: the catalogue is read, then the content
/// state that it names, whose digest is compared after it was read, and then the state's bundles in the order of their names.
/// Each file is read once, one at a time, and a bundle's size and digest are compared before it is opened. Memory for the rows
/// of the catalogue, the state, and all files of its bundles.
pub fn open_release<D: Depot>(
    alloc: Global,
    depot: &mut D,
    folder: &str,
) -> Result<Release, HeldErr>
    // What the files hold, or the first thing that is wrong with them.
    ensures answers { IfSome (D.now depot.old).files (λ files. OpensRelease files folder.now result) }
    // What later calls over the release ask for.
    ensures many { IfOk result (λ release. length release.cabs ≡ length release.state.bundles) }
    ensures few { IfOk result (λ release. length release.cabs < 2 ^ 32) }
    ensures sound { IfOk result (λ release. IsSound release.state) }
    ensures same { SameStore (D.now depot.old) (D.now depot.new) }
    ensures cause { HeldRose (D.now depot.old).faults (D.now depot.new).faults result }
{
    let catalogue = read_catalogue(alloc, depot, folder)?;
    let state = read_named(alloc, depot, folder, catalogue.state)?;
    let cabs = open_bundles(alloc, depot, folder, &state)?;
    Ok(Release {
        catalogue,
        state,
        cabs,
    })
}
