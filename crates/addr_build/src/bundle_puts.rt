// Putting a bundle's file: its name is tested on both sides first, and it is put only where it isn't there.
ghost use Rattle.std.specs.Prelude.{◌≡◌, ◌∷◌, [], ◌++◌, None, Some, IfOk, IfSome, Ok, false, codes, if◌then◌else◌};
ghost use Rattle.std.specs.Bool.{MatchBool};
ghost use Rattle.addr_base.specs.Files.{FaultRose, SameStore, file_at};
ghost use Rattle.addr_release.specs.Names.{side_path};
ghost use Rattle.addr_state.specs.Files.{side_folder};
ghost use Rattle.addr_build.specs.Endings.{Ends, PutRose, key_tests, name_tests};
ghost use Rattle.addr_build.specs.within.Testing.{Tells};
ghost use Rattle.addr_build.specs.Putting.{Lays, file_of};

use crate::error::PutErr;
use crate::testing::{is_owed, put_at};
use addr_base::{Depot, DepotErr, NoMemory, Text};
use std::alloc::Global;

fn side(remote: bool) -> &'static str
    ensures { result.now ≡ side_folder remote }
{
    if remote { "remote/" } else { "local/" }
}

/// The name of a bundle's file below the folder.
pub fn side_name(alloc: Global, remote: bool, key: &str) -> Result<Text, NoMemory>
    ensures { IfOk result (λ name. name ≡ side_folder remote ++ key.now) }
{
    let mut name = String::from_str(alloc, side(remote))?;
    name.push_str(key)?;
    Ok(Text::from_string(name))
}

/// The same for a bundle's file, on one side.
fn is_owed_on<D: Depot>(
    alloc: Global,
    depot: &mut D,
    folder: &str,
    remote: bool,
    key: &str,
    bytes: &[u8],
) -> Result<bool, PutErr>
    ensures tests { IfSome (D.now depot.old).files (λ files. Tells files folder.now
        (name_tests 0 (side_folder remote ++ key.now) bytes.now) (side_path folder.now remote key.now) bytes.now result) }
    ensures same { SameStore (D.now depot.old) (D.now depot.new) }
    ensures cause { PutRose (D.now depot.old).faults (D.now depot.new).faults result }
{
    let name = side_name(alloc, remote, key)?;
    is_owed(alloc, depot, folder, name.as_str(), bytes)
}

/// The same for a bundle's file, whose name is tested on both sides.
fn is_owed_anywhere<D: Depot>(
    alloc: Global,
    depot: &mut D,
    folder: &str,
    remote: bool,
    key: &str,
    bytes: &[u8],
) -> Result<bool, PutErr>
    ensures tests { IfSome (D.now depot.old).files (λ files. Tells files folder.now
        (key_tests 0 key.now bytes.now) (side_path folder.now remote key.now) bytes.now result) }
    ensures same { SameStore (D.now depot.old) (D.now depot.new) }
    ensures cause { PutRose (D.now depot.old).faults (D.now depot.new).faults result }
{
    let near = is_owed_on(alloc, depot, folder, false, key, bytes)?;
    let far = is_owed_on(alloc, depot, folder, true, key, bytes)?;
    Ok(if remote { far } else { near })
}

fn put_below<D: Depot>(
    alloc: Global,
    depot: &mut D,
    folder: &str,
    remote: bool,
    key: &str,
    bytes: &[u8],
) -> Result<(), DepotErr>
    ensures puts { Lays (file_of (side_path folder.now remote key.now) bytes.now ∷ [])
        (D.now depot.old) (D.now depot.new) result }
    ensures cause { FaultRose (D.now depot.old).faults (D.now depot.new).faults result }
{
    let name = side_name(alloc, remote, key)?;
    put_at(alloc, depot, folder, name.as_str(), bytes)?;
    Ok(())
}

/// Puts a bundle's file on its side under its key, after its name was tested on both sides, and answers whether it was
/// put: a file that is there isn't put again.
pub fn put_bundle<D: Depot>(
    alloc: Global,
    depot: &mut D,
    folder: &str,
    remote: bool,
    key: &str,
    bytes: &[u8],
) -> Result<bool, PutErr>
    ensures ends { Ends folder.now (file_of (side_path folder.now remote key.now) bytes.now ∷ []) 0
        (key_tests 0 key.now bytes.now) (D.now depot.old) (D.now depot.new) result }
    ensures put { IfSome (D.now depot.old).files (λ files. IfOk result (λ put. MatchBool put
        (file_at (side_path folder.now remote key.now) files ≡ None)
        (file_at (side_path folder.now remote key.now) files ≡ Some bytes.now))) }
    ensures again { result ≡ Ok false → SameStore (D.now depot.old) (D.now depot.new) }
    ensures cause { PutRose (D.now depot.old).faults (D.now depot.new).faults result }
{
    if is_owed_anywhere(alloc, depot, folder, remote, key, bytes)? {
        put_below(alloc, depot, folder, remote, key, bytes)?;
        Ok(true)
    } else {
        Ok(false)
    }
}
