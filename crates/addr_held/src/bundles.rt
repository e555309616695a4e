// The bundles of a state: the file of each, read and judged one after the other.
ghost use Rattle.std.specs.Prelude.{◌≡◌, ◌++◌, ◌∷◌, [], length, IfErr, IfOk, IfSome, OnOk};
ghost use Rattle.std.specs.List.{AllZip};
ghost use Rattle.std.specs.Option.{option_map};
ghost use Rattle.addr_base.specs.Files.{FaultRose, SameStore, file_at};
ghost use Rattle.addr_held.specs.Opening.{HeldRose, IsIntactAs};
ghost use Rattle.addr_held.specs.within.Steps.{IsBundleRefused, IsRefused, Names, OpensBundle};
ghost use Rattle.addr_project.specs.Reading.{path};

use crate::error::HeldErr;
use crate::judging::judge;
use crate::naming::path_of;
use addr_base::{Depot, DepotErr, Items, NoMemory, Text};
use addr_cab::Cab;
use addr_state::{State, StateBundle};
use addr_update::NotIntact;
use std::alloc::Global;

/// The file with a name below the folder.
fn find_file<D: Depot>(
    alloc: Global,
    depot: &mut D,
    folder: &str,
    name: &str,
) -> Result<Option<Vec<u8>>, DepotErr>
    ensures found { IfSome (D.now depot.old).files
        (λ files. IfOk result (λ found. option_map (λ v. v.items) found ≡ file_at (path folder.now name.now) files)) }
    ensures same { SameStore (D.now depot.old) (D.now depot.new) }
    ensures cause { FaultRose (D.now depot.old).faults (D.now depot.new).faults result }
{
    let path = path_of(alloc, folder, name)?;
    let found = depot.read(alloc, path.as_str())?;
    Ok(found)
}

/// Opens the file of a bundle, or tells what is first wrong with it.
fn judge_file<D: Depot>(
    alloc: Global,
    depot: &mut D,
    folder: &str,
    old: &StateBundle,
) -> Result<Result<Cab, NotIntact>, DepotErr>
    ensures opened { IfSome (D.now depot.old).files (λ files. IfOk result (OpensBundle files folder.now old.now)) }
    ensures same { SameStore (D.now depot.old) (D.now depot.new) }
    ensures cause { FaultRose (D.now depot.old).faults (D.now depot.new).faults result }
{
    match find_file(alloc, depot, folder, old.file.as_str())? {
        Some(file) => {
            let judged = judge(alloc, old, file)?;
            Ok(judged)
        }
        None => Ok(Err(NotIntact::Missing)),
    }
}

fn refusal(alloc: Global, file: &str, why: NotIntact) -> HeldErr
    ensures { Names file.now why result }
{
    match Text::copy_of(alloc, file) {
        Ok(file) => HeldErr::BadRelease { file, why },
        Err(_) => HeldErr::NoMemory,
    }
}

/// Opens a bundle, which is named by its file where it isn't as the state says.
fn open_bundle<D: Depot>(
    alloc: Global,
    depot: &mut D,
    folder: &str,
    old: &StateBundle,
) -> Result<Cab, HeldErr>
    ensures opened { IfSome (D.now depot.old).files (λ files. IfOk result (IsIntactAs files folder.now old.now)) }
    ensures refused { IfSome (D.now depot.old).files (λ files. IfErr result (IsBundleRefused files folder.now old.now)) }
    ensures same { SameStore (D.now depot.old) (D.now depot.new) }
    ensures cause { HeldRose (D.now depot.old).faults (D.now depot.new).faults result }
{
    match judge_file(alloc, depot, folder, old)? {
        Ok(cab) => Ok(cab),
        Err(why) => Err(refusal(alloc, old.file.as_str(), why)),
    }
}

/// Opens the bundles of a state in their order, up to the first that isn't as the state says.
pub(crate) fn open_bundles<D: Depot>(
    alloc: Global,
    depot: &mut D,
    folder: &str,
    state: &State,
) -> Result<Items<Cab>, HeldErr>
    ensures opened { IfSome (D.now depot.old).files
        (λ files. IfOk result (λ cabs. AllZip (IsIntactAs files folder.now) state.now.bundles cabs)) }
    ensures many { IfOk result (λ cabs. length cabs ≡ length state.now.bundles) }
    ensures refused { IfSome (D.now depot.old).files (λ files. IfErr result (IsRefused files folder.now state.now)) }
    ensures same { SameStore (D.now depot.old) (D.now depot.new) }
    ensures cause { HeldRose (D.now depot.old).faults (D.now depot.new).faults result }
{
    let mut cabs: Items<Cab> = Items::new(alloc);
    let bundles = state.bundles.as_slice();
    for bundle in bundles {
        let cab = open_bundle(alloc, depot, folder, bundle)?;
        cabs.push(cab)?;
    }
    Ok(cabs)
}
