// The bundles of a catalogue: the file of each, among the local ones or else among the remote ones, with its objects.
ghost use Rattle.std.specs.Prelude.{◌≡◌, ◌++◌, ◌∷◌, [], length, IfErr, IfOk, IfSome, OnOk};
ghost use Rattle.std.specs.List.{AllZip};
ghost use Rattle.std.specs.Option.{option_map};
ghost use Rattle.addr_base.specs.Files.{FaultRose, SameStore, file_at};
ghost use Rattle.addr_project.specs.Reading.{path};
ghost use Rattle.addr_release.specs.Names.{bundle_file};
ghost use Rattle.addr_resolve.specs.Opening.{IsOpenedAs, IsRefused, IsRowRefused, Names, OpenRose, Opens, OpensRow};

use crate::error::{BundleFault, OpenErr};
use addr_base::{Depot, DepotErr, NoMemory, Text};
use addr_cab::{Cab, CabErr, read_cab};
use addr_locate::BundleRow;
use addr_unityfs::{FsErr, read_bundle};
use std::alloc::Global;

/// The depot's name of a file on a side.
pub(crate) fn path_of(alloc: Global, folder: &str, side: &str, key: &str) -> Result<Text, NoMemory>
    ensures { IfOk result (λ text. text ≡ path folder.now (side.now ++ key.now)) }
{
    let mut text = String::from_str(alloc, folder)?;
    text.push_str("/")?;
    text.push_str(side)?;
    text.push_str(key)?;
    Ok(Text::from_string(text))
}

fn read_side<D: Depot>(
    alloc: Global,
    depot: &mut D,
    folder: &str,
    side: &str,
    key: &str,
) -> Result<Option<Vec<u8>>, DepotErr>
    ensures found { IfSome (D.now depot.old).files
        (λ files. IfOk result (λ found. option_map (λ v. v.items) found ≡ file_at (path folder.now (side.now ++ key.now)) files)) }
    ensures same { SameStore (D.now depot.old) (D.now depot.new) }
    ensures cause { FaultRose (D.now depot.old).faults (D.now depot.new).faults result }
{
    let path = path_of(alloc, folder, side, key)?;
    let found = depot.read(alloc, path.as_str())?;
    Ok(found)
}

/// The file under a key.
fn find_file<D: Depot>(
    alloc: Global,
    depot: &mut D,
    folder: &str,
    key: &str,
) -> Result<Option<Vec<u8>>, DepotErr>
    ensures found { IfSome (D.now depot.old).files
        (λ files. IfOk result (λ found. option_map (λ v. v.items) found ≡ bundle_file files folder.now key.now)) }
    ensures same { SameStore (D.now depot.old) (D.now depot.new) }
    ensures cause { FaultRose (D.now depot.old).faults (D.now depot.new).faults result }
{
    match read_side(alloc, depot, folder, "local/", key)? {
        Some(file) => Ok(Some(file)),
        None => {
            let found = read_side(alloc, depot, folder, "remote/", key)?;
            Ok(found)
        }
    }
}

/// The objects of a file, or its first fault.
fn open_file(alloc: Global, file: Vec<u8>) -> Result<Result<Cab, BundleFault>, NoMemory>
    ensures { IfOk result (Opens file.items) }
{
    let bundle = match read_bundle(alloc, file.as_slice()) {
        Ok(bundle) => bundle,
        Err(FsErr::NoMemory) => return Err(NoMemory),
        Err(fault) => return Ok(Err(BundleFault::Fs(fault))),
    };
    match read_cab(alloc, file, &bundle) {
        Ok(cab) => Ok(Ok(cab)),
        Err(CabErr::NoMemory) => Err(NoMemory),
        Err(fault) => Ok(Err(BundleFault::Cab(fault))),
    }
}

/// Opens the bundle of a row.
fn open_bundle<D: Depot>(
    alloc: Global,
    depot: &mut D,
    folder: &str,
    row: &BundleRow,
) -> Result<Result<Cab, BundleFault>, DepotErr>
    ensures opened { IfSome (D.now depot.old).files (λ files. IfOk result (OpensRow files folder.now row.now)) }
    ensures same { SameStore (D.now depot.old) (D.now depot.new) }
    ensures cause { FaultRose (D.now depot.old).faults (D.now depot.new).faults result }
{
    match find_file(alloc, depot, folder, row.key.as_str())? {
        Some(file) => {
            let opened = open_file(alloc, file)?;
            Ok(opened)
        }
        None => Ok(Err(BundleFault::Missing)),
    }
}

fn refusal(alloc: Global, key: &str, why: BundleFault) -> OpenErr
    ensures { Names key.now why result }
{
    match Text::copy_of(alloc, key) {
        Ok(key) => OpenErr::Bad { key, why },
        Err(_) => OpenErr::NoMemory,
    }
}

/// Opens the bundle of a row, which is named where it can't be read.
fn open_row<D: Depot>(
    alloc: Global,
    depot: &mut D,
    folder: &str,
    row: &BundleRow,
) -> Result<Cab, OpenErr>
    ensures opened { IfSome (D.now depot.old).files (λ files. IfOk result (IsOpenedAs files folder.now row.now)) }
    ensures refused { IfSome (D.now depot.old).files (λ files. IfErr result (IsRowRefused files folder.now row.now)) }
    ensures same { SameStore (D.now depot.old) (D.now depot.new) }
    ensures cause { OpenRose (D.now depot.old).faults (D.now depot.new).faults result }
{
    match open_bundle(alloc, depot, folder, row)? {
        Ok(cab) => Ok(cab),
        Err(why) => Err(refusal(alloc, row.key.as_str(), why)),
    }
}

fn push<T: Drop>(items: &mut Vec<T>, item: T) -> Result<(), NoMemory>
    ensures { OnOk result (items.new.items ≡ items.old.items ++ item ∷ []) }
{
    items.push(item)?;
    Ok(())
}

/// Opens the bundles of all rows, in their order, up to the first that is missing or can't be read. Sizes and digests are
/// not looked at.
pub fn open_all<D: Depot>(
    alloc: Global,
    depot: &mut D,
    folder: &str,
    rows: &[BundleRow],
) -> Result<Vec<Cab>, OpenErr>
    // What the files of all rows hold, row by row.
    ensures opened { IfSome (D.now depot.old).files
        (λ files. IfOk result (λ cabs. AllZip (IsOpenedAs files folder.now) rows.now cabs.items)) }
    ensures many { IfOk result (λ cabs. length cabs.items ≡ length rows.now) }
    // The first row whose file is missing or can't be read, and why.
    ensures refused { IfSome (D.now depot.old).files (λ files. IfErr result (IsRefused files folder.now rows.now)) }
    ensures same { SameStore (D.now depot.old) (D.now depot.new) }
    ensures cause { OpenRose (D.now depot.old).faults (D.now depot.new).faults result }
{
    let mut cabs = Vec::new(alloc);
    for row in rows {
        let cab = open_row(alloc, depot, folder, row)?;
        push(&mut cabs, cab)?;
    }
    Ok(cabs)
}
