// Putting what tells of a release: its content state, its catalogue, and the catalogue's hash.
ghost use Rattle.std.specs.Prelude.{◌≡◌, ◌∷◌, [], ◌++◌, codes, false, None, Some, Ok, IfOk, IfSome};
ghost use Rattle.std.specs.Bool.{MatchBool};
ghost use Rattle.addr_base.specs.Files.{FaultRose, SameStore, file_at};
ghost use Rattle.addr_base.specs.Ids.{digest_of, hex_of};
ghost use Rattle.addr_project.specs.Reading.{path};
ghost use Rattle.addr_release.specs.Names.{digest_from, state_file, state_path};
ghost use Rattle.addr_release.specs.Puts.{catalogue_put, hash_put, state_put};
ghost use Rattle.addr_build.specs.Endings.{Ends, PutRose, name_tests};
ghost use Rattle.addr_build.specs.Putting.{AreListed, Lays, file_of};

use crate::error::PutErr;
use crate::putting::put_file;
use crate::testing::{path_of, put_tested};
use addr_base::{Depot, DepotErr, NoMemory, Text, digest};
use std::alloc::Global;

/// The name of a content state below the folder.
fn state_name(alloc: Global, bytes: &[u8]) -> Result<Text, NoMemory>
    ensures { IfOk result (λ name. name ≡ state_file (Some (digest_from bytes.now))) }
{
    let digest = digest(bytes);
    let name = format!(in alloc; "state_{digest}.json")?;
    Ok(Text::from_string(name))
}

/// Puts a content state under the name that its digest gives it; other bytes may not have that name.
pub fn put_state<D: Depot>(
    alloc: Global,
    depot: &mut D,
    folder: &str,
    bytes: &[u8],
) -> Result<bool, PutErr>
    ensures ends { Ends folder.now (state_put folder.now bytes.now ∷ []) 0
        (name_tests 0 (state_file (Some (digest_from bytes.now))) bytes.now)
        (D.now depot.old) (D.now depot.new) result }
    ensures put { IfSome (D.now depot.old).files (λ files. IfOk result (λ put. MatchBool put
        (file_at (state_path folder.now (Some (digest_from bytes.now))) files ≡ None)
        (file_at (state_path folder.now (Some (digest_from bytes.now))) files ≡ Some bytes.now))) }
    ensures again { result ≡ Ok false → SameStore (D.now depot.old) (D.now depot.new) }
    ensures cause { PutRose (D.now depot.old).faults (D.now depot.new).faults result }
{
    let name = state_name(alloc, bytes)?;
    put_tested(alloc, depot, folder, name.as_str(), bytes)
}

/// Puts a file under a name below the folder, in place of other bytes.
fn put_anew<D: Depot>(
    alloc: Global,
    depot: &mut D,
    folder: &str,
    name: &str,
    bytes: &[u8],
) -> Result<(), DepotErr>
    ensures puts { Lays (file_of (path folder.now name.now) bytes.now ∷ []) (D.now depot.old) (D.now depot.new) result }
    ensures again { IfSome (D.now depot.old).files (λ files.
        file_at (path folder.now name.now) files ≡ Some bytes.now → SameStore (D.now depot.old) (D.now depot.new)) }
    ensures cause { FaultRose (D.now depot.old).faults (D.now depot.new).faults result }
{
    let path = path_of(alloc, folder, name)?;
    put_file(alloc, depot, path.as_str(), bytes)?;
    Ok(())
}

/// The digits of the digest of some bytes.
fn digits_of(alloc: Global, bytes: &[u8]) -> Result<Text, NoMemory>
    ensures { IfOk result (λ digits. digits ≡ hex_of (digest_of bytes.now)) }
{
    let digest = digest(bytes);
    let digits = format!(in alloc; "{digest}")?;
    Ok(Text::from_string(digits))
}

/// Puts a catalogue, at which the release changes, and then the file that holds its digest; where both are there nothing
/// changes.
pub fn put_catalogue<D: Depot>(
    alloc: Global,
    depot: &mut D,
    folder: &str,
    bytes: &[u8],
) -> Result<(), DepotErr>
    ensures puts { Lays (catalogue_put folder.now bytes.now ∷ hash_put folder.now bytes.now ∷ [])
        (D.now depot.old) (D.now depot.new) result }
    ensures again { IfSome (D.now depot.old).files (λ files. AreListed folder.now bytes.now files
        → SameStore (D.now depot.old) (D.now depot.new)) }
    ensures cause { FaultRose (D.now depot.old).faults (D.now depot.new).faults result }
{
    let digits = digits_of(alloc, bytes)?;
    put_anew(alloc, depot, folder, "remote/catalog_main.json", bytes)?;
    put_anew(
        alloc,
        depot,
        folder,
        "remote/catalog_main.hash",
        digits.as_bytes(),
    )?;
    Ok(())
}

/// Puts a content state and then a catalogue with its hash; where all three are there nothing changes.
pub fn put_state_and_catalogue<D: Depot>(
    alloc: Global,
    depot: &mut D,
    folder: &str,
    state: &[u8],
    catalogue: &[u8],
) -> Result<(), PutErr>
    ensures ends { Ends folder.now
        (state_put folder.now state.now
        ∷ catalogue_put folder.now catalogue.now ∷ hash_put folder.now catalogue.now ∷ []) 0
        (name_tests 0 (state_file (Some (digest_from state.now))) state.now)
        (D.now depot.old) (D.now depot.new) result }
    ensures again { IfOk result (λ done. IfSome (D.now depot.old).files (λ files.
        (file_at (state_path folder.now (Some (digest_from state.now))) files ≡ Some state.now)
        × AreListed folder.now catalogue.now files → SameStore (D.now depot.old) (D.now depot.new))) }
    ensures cause { PutRose (D.now depot.old).faults (D.now depot.new).faults result }
{
    put_state(alloc, depot, folder, state)?;
    put_catalogue(alloc, depot, folder, catalogue)?;
    Ok(())
}
