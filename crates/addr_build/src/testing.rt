// Putting a file whose name may be taken: the name is tested first, and the file is put only where it isn't there.
ghost use Rattle.std.specs.Prelude.{◌≡◌, ◌∷◌, [], false, None, Some, Ok, IfOk, IfSome};
ghost use Rattle.std.specs.Bool.{MatchBool};
ghost use Rattle.addr_base.specs.Files.{FaultRose, SameStore, file_at};
ghost use Rattle.addr_project.specs.Reading.{path};
ghost use Rattle.addr_build.specs.Endings.{Ends, PutRose, name_tests};
ghost use Rattle.addr_build.specs.within.Testing.{Owes, Tells};
ghost use Rattle.addr_build.specs.Putting.{Lays, file_of};

use crate::error::PutErr;
use crate::putting::{Spot, look, put};
use addr_base::{Depot, DepotErr, NoMemory, Text};
use std::alloc::Global;

/// The depot's name of a file below the folder.
pub fn path_of(alloc: Global, folder: &str, name: &str) -> Result<Text, NoMemory>
    ensures { IfOk result (λ text. text ≡ path folder.now name.now) }
{
    let mut text = String::from_str(alloc, folder)?;
    text.push_str("/")?;
    text.push_str(name)?;
    Ok(Text::from_string(text))
}

/// Whether a file has still to be put where this stands under its name.
fn owed_at(alloc: Global, spot: Spot, name: &str) -> Result<bool, PutErr>
    ensures { Owes spot name.now result }
{
    match spot {
        Spot::Free => Ok(true),
        Spot::Same => Ok(false),
        Spot::Other => {
            let name = Text::copy_of(alloc, name)?;
            Err(PutErr::Taken(name))
        }
    }
}

/// Whether a file has still to be put under a name below the folder, which other bytes may not have.
pub(crate) fn is_owed<D: Depot>(
    alloc: Global,
    depot: &mut D,
    folder: &str,
    name: &str,
    bytes: &[u8],
) -> Result<bool, PutErr>
    ensures tests { IfSome (D.now depot.old).files
        (λ files. Tells files folder.now (name_tests 0 name.now bytes.now) (path folder.now name.now) bytes.now result) }
    ensures same { SameStore (D.now depot.old) (D.now depot.new) }
    ensures cause { PutRose (D.now depot.old).faults (D.now depot.new).faults result }
{
    let path = path_of(alloc, folder, name)?;
    let spot = look(alloc, depot, path.as_str(), bytes)?;
    owed_at(alloc, spot, name)
}

/// Puts a file under a name below the folder, in place of whatever has it.
pub(crate) fn put_at<D: Depot>(
    alloc: Global,
    depot: &mut D,
    folder: &str,
    name: &str,
    bytes: &[u8],
) -> Result<(), DepotErr>
    ensures puts { Lays (file_of (path folder.now name.now) bytes.now ∷ []) (D.now depot.old) (D.now depot.new) result }
    ensures cause { FaultRose (D.now depot.old).faults (D.now depot.new).faults result }
{
    let path = path_of(alloc, folder, name)?;
    put(alloc, depot, path.as_str(), bytes)?;
    Ok(())
}

/// Puts a file under a name below the folder, which other bytes may not have.
pub(crate) fn put_tested<D: Depot>(
    alloc: Global,
    depot: &mut D,
    folder: &str,
    name: &str,
    bytes: &[u8],
) -> Result<bool, PutErr>
    ensures ends { Ends folder.now (file_of (path folder.now name.now) bytes.now ∷ []) 0
        (name_tests 0 name.now bytes.now) (D.now depot.old) (D.now depot.new) result }
    ensures put { IfSome (D.now depot.old).files (λ files. IfOk result (λ put. MatchBool put
        (file_at (path folder.now name.now) files ≡ None)
        (file_at (path folder.now name.now) files ≡ Some bytes.now))) }
    ensures again { result ≡ Ok false → SameStore (D.now depot.old) (D.now depot.new) }
    ensures cause { PutRose (D.now depot.old).faults (D.now depot.new).faults result }
{
    if is_owed(alloc, depot, folder, name, bytes)? {
        put_at(alloc, depot, folder, name, bytes)?;
        Ok(true)
    } else {
        Ok(false)
    }
}
