// What the files of a release show under a key.
ghost use Rattle.std.specs.Prelude.{◌≡◌, ◌<◌, All, IfOk, IfSome, List, length};
ghost use Rattle.addr_base.specs.Files.{SameStore};
ghost use Rattle.addr_catalog.specs.Catalogue.{catalogue_read};
ghost use Rattle.addr_locate.specs.declared.rows.AssetRow.{AssetRow};
ghost use Rattle.addr_release.specs.Names.{catalogue_path};
ghost use Rattle.addr_resolve.specs.Resolving.{ResolveRose, Resolves};
ghost use Rattle.addr_resolve.specs.within.Steps.{AreNumbersOf, FindsKey, ReadsRelease, ResolvesIn};

use crate::error::{BundleFault, ResolveErr};
use crate::opening::{open_all, path_of};
use crate::rows::{Resolved, RowErr, resolve_rows};
use addr_base::{Depot, Items, NoMemory, RowNo, Text};
use addr_catalog::{CatErr, Catalogue, read_catalog};
use addr_locate::{Kind, Locator, Merge};
use std::alloc::Global;

/// The depot's name of a folder's catalogue.
fn catalogue_path(alloc: Global, folder: &str) -> Result<Text, NoMemory>
    ensures { IfOk result (λ text. text ≡ catalogue_path folder.now) }
{
    path_of(alloc, folder, "remote/", "catalog_main.json")
}

/// The catalogue that bytes stand for, or its first fault.
fn read_bytes(alloc: Global, bytes: &[u8]) -> Result<Result<Catalogue, CatErr>, NoMemory>
    ensures { IfOk result (λ read. catalogue_read bytes.now ≡ read) }
{
    match read_catalog(alloc, bytes) {
        Ok(catalogue) => Ok(Ok(catalogue)),
        Err(CatErr::NoMemory) => Err(NoMemory),
        Err(fault) => Ok(Err(fault)),
    }
}

/// The catalogue of a folder.
fn read_release<D: Depot>(
    alloc: Global,
    depot: &mut D,
    folder: &str,
) -> Result<Catalogue, ResolveErr>
    ensures reads { IfSome (D.now depot.old).files (λ files. ReadsRelease files folder.now result) }
    ensures same { SameStore (D.now depot.old) (D.now depot.new) }
    ensures cause { ResolveRose (D.now depot.old).faults (D.now depot.new).faults result }
{
    let path = catalogue_path(alloc, folder)?;
    match depot.read(alloc, path.as_str())? {
        None => Err(ResolveErr::NoRelease(path)),
        Some(bytes) => match read_bytes(alloc, bytes.as_slice())? {
            Ok(catalogue) => Ok(catalogue),
            Err(fault) => Err(ResolveErr::BadCatalogue(fault)),
        },
    }
}

/// The numbers of the rows with a key, in order: its own rows alone are looked at.
fn rows_of_key(alloc: Global, locator: &Locator, key: &str) -> Result<Items<RowNo>, ResolveErr>
    ensures finds { FindsKey locator.now key.now result }
    ensures within { IfOk result (All (λ n. n.0 < length locator.now.assets)) }
{
    locator.are_rows();
    let asked = locator.key_no(key);
    let numbers = locator.locate(alloc, &[asked], Merge::UseFirst, Kind::Any)?;
    if numbers.is_empty() {
        Err(ResolveErr::NoKey)
    } else {
        Ok(numbers)
    }
}

/// Opens all bundles, and resolves the rows with some numbers.
fn open_and_resolve<D: Depot>(
    alloc: Global,
    depot: &mut D,
    folder: &str,
    locator: &Locator,
    numbers: &[RowNo],
) -> Result<Items<Resolved>, ResolveErr>
    requires within { All (λ n. n.0 < length locator.now.assets) numbers.now }
    ensures resolves { IfSome (D.now depot.old).files (λ files. (rows : List AssetRow)
        → AreNumbersOf locator.now rows numbers.now → ResolvesIn files folder.now locator.now rows result) }
    ensures same { SameStore (D.now depot.old) (D.now depot.new) }
    ensures cause { ResolveRose (D.now depot.old).faults (D.now depot.new).faults result }
{
    let cabs = open_all(alloc, depot, folder, locator.bundles())?;
    match resolve_rows(alloc, locator, cabs.as_slice(), numbers) {
        Ok(shown) => Ok(shown),
        Err(RowErr::Lost { key, guid }) => Err(ResolveErr::BadBundle {
            key,
            why: BundleFault::Lost(guid),
        }),
        Err(RowErr::NoMemory) => Err(ResolveErr::NoMemory),
    }
}

/// What the release in a folder holds under a key: the rows with the key in the order of the catalogue, each with the items of
/// its walk in the order of GUIDs. All bundles of the catalogue are read first, in the order of their numbers, each file among
/// the local ones or else among the remote ones; sizes and digests of rows aren't looked at. Memory for all files of the
/// catalogue, the graph of their objects, and the items; each bundle is read once.
pub fn resolve<D: Depot>(
    alloc: Global,
    depot: &mut D,
    folder: &str,
    key: &str,
) -> Result<Items<Resolved>, ResolveErr>
    // What the files show under the key, or the first cause of a refusal.
    ensures answers { IfSome (D.now depot.old).files (λ files. Resolves files folder.now key.now result) }
    ensures same { SameStore (D.now depot.old) (D.now depot.new) }
    ensures cause { ResolveRose (D.now depot.old).faults (D.now depot.new).faults result }
{
    let catalogue = read_release(alloc, depot, folder)?;
    let numbers = rows_of_key(alloc, &catalogue.locator, key)?;
    let shown = open_and_resolve(alloc, depot, folder, &catalogue.locator, numbers.as_slice())?;
    Ok(shown)
}
