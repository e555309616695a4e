// Kept bundles: their rows are the state's, and their names are looked at on the other side alone.
ghost use Rattle.std.specs.Prelude.{◌≡◌, ℕ, List, Bool, IfOk, IfSome, Some, not};
ghost use Rattle.std.specs.Option.{option_map};
ghost use Rattle.addr_base.specs.Files.{FaultRose, SameStore, file_at};
ghost use Rattle.addr_base.specs.Ids.{Are16Bytes};
ghost use Rattle.hex.specs.Hex.{IsBytes};
ghost use Rattle.addr_base.specs.declared.ids.Digest.{Digest as Sum};
ghost use Rattle.addr_build.specs.Endings.{PutRose, key_tests};
ghost use Rattle.addr_build.specs.Making.{PutsOne};
ghost use Rattle.addr_project.specs.Reading.{path};
ghost use Rattle.addr_release.specs.Names.{side_path};
ghost use Rattle.addr_release.specs.Puts.{are_other};
ghost use Rattle.addr_state.specs.Sound.{IsWellFormed};
ghost use Rattle.addr_state.specs.Files.{side_file};
ghost use Rattle.addr_update.specs.After.{IsRowOfOld};
ghost use Rattle.addr_patch.specs.within.Putting.{Refuses, Stands, TellsKept};

use addr_base::{Depot, DepotErr, Digest, NoMemory, Text, is_same};
use addr_build::{PutBundle, PutErr, path_of, side_name};
use addr_locate::BundleRow;
use addr_state::StateBundle;
use std::alloc::Global;

/// Whether a bundle's file lies among the remote ones, by its name below the folder.
fn is_remote(file: &str) -> bool
    ensures { (side : Bool) (name : List ℕ) (digest : Sum) → file.now ≡ side_file side name digest → result ≡ side }
{
    match file.as_bytes().get(0) {
        Some(first) => *first == b'r',
        None => false,
    }
}

/// A row of the catalogue, copied.
fn copy_of(alloc: Global, row: &BundleRow) -> Result<BundleRow, NoMemory>
    ensures { IfOk result (λ copy. copy ≡ row.now) }
{
    Ok(BundleRow {
        key: Text::copy_of(alloc, row.key.as_str())?,
        size: row.size,
        digest: row.digest,
        name: Text::copy_of(alloc, row.name.as_str())?,
        id: Text::copy_of(alloc, row.id.as_str())?,
    })
}

/// Whether a file has these bytes, where it is there.
fn is_like(found: Option<Vec<u8>>, bytes: &[u8]) -> bool
    ensures { (own : List ℕ) → option_map (λ v. v.items) found ≡ Some own → result ≡ not (are_other own (Some bytes.now)) }
{
    match found {
        Some(own) => is_same(bytes, own.as_slice()),
        None => true,
    }
}

/// Whether no file has the second name, or one with the bytes of that with the first, which is there.
fn is_free_beside<D: Depot>(
    alloc: Global,
    depot: &mut D,
    own: &str,
    other: &str,
) -> Result<bool, DepotErr>
    ensures told { IfSome (D.now depot.old).files (λ files. IfOk result (λ free. (bytes : List ℕ)
        → file_at own.now files ≡ Some bytes → free ≡ not (are_other bytes (file_at other.now files)))) }
    ensures same { SameStore (D.now depot.old) (D.now depot.new) }
    ensures cause { FaultRose (D.now depot.old).faults (D.now depot.new).faults result }
{
    match depot.read(alloc, other)? {
        None => Ok(true),
        Some(there) => {
            let found = depot.read(alloc, own)?;
            Ok(is_like(found, there.as_slice()))
        }
    }
}

/// The refusal of a name on a side, unless it is free.
fn refusal(alloc: Global, remote: bool, key: &str, free: bool) -> Result<(), PutErr>
    ensures { Refuses remote key.now free result }
{
    if free {
        Ok(())
    } else {
        let name = side_name(alloc, remote, key)?;
        Err(PutErr::Taken(name))
    }
}

/// Looks whether other bytes have the name of a kept bundle on the other side. Its own file is read only where a file is there.
fn test_kept<D: Depot>(
    alloc: Global,
    depot: &mut D,
    folder: &str,
    remote: bool,
    key: &str,
) -> Result<(), PutErr>
    ensures tests { IfSome (D.now depot.old).files (λ files. (bytes : List ℕ)
        → file_at (side_path folder.now remote key.now) files ≡ Some bytes
        → TellsKept files folder.now (key_tests 0 key.now bytes) result) }
    ensures same { SameStore (D.now depot.old) (D.now depot.new) }
    ensures cause { PutRose (D.now depot.old).faults (D.now depot.new).faults result }
{
    let name = side_name(alloc, remote, key)?;
    let own = path_of(alloc, folder, name.as_str())?;
    let name = side_name(alloc, !remote, key)?;
    let other = path_of(alloc, folder, name.as_str())?;
    let free = is_free_beside(alloc, depot, own.as_str(), other.as_str())?;
    refusal(alloc, !remote, key, free)
}

/// What the type says of a digest's bytes. Nothing runs.
fn digest_fits(digest: &Digest)
    ensures { Are16Bytes digest.now.0 }
{
    sixteen_fit(&digest.0)
}

fn sixteen_fit(bytes: &[u8; 16])
    ensures { Are16Bytes bytes.now }
{
    bytes_fit(bytes);
}

fn bytes_fit(bytes: &[u8])
    ensures { IsBytes bytes.now }
{
    let _len = bytes.len();
}

/// Tests the name of a bundle of the state that stays. No file is put.
pub(crate) fn put_kept<D: Depot>(
    alloc: Global,
    depot: &mut D,
    folder: &str,
    old: &StateBundle,
    row: &BundleRow,
) -> Result<PutBundle, PutErr>
    requires formed { IsWellFormed old.now }
    requires row { IsRowOfOld old.now row.now }
    // Where its own file is there, as the state says.
    ensures puts { (b : ℕ) → IfSome (D.now depot.old).files (λ files. (file : List ℕ)
        × (file_at (path folder.now old.now.file) files ≡ Some file))
        → PutsOne (Stands old.now row.now (D.now depot.old) folder.now) folder.now b (D.now depot.old) (D.now depot.new) result }
    ensures row { IfOk result (λ one. one.row ≡ row.now) }
    ensures same { SameStore (D.now depot.old) (D.now depot.new) }
    ensures fits { Are16Bytes old.now.digest.0 }
    ensures cause { PutRose (D.now depot.old).faults (D.now depot.new).faults result }
{
    digest_fits(&old.digest);
    let row = copy_of(alloc, row)?;
    let remote = is_remote(old.file.as_str());
    test_kept(alloc, depot, folder, remote, row.key.as_str())?;
    Ok(PutBundle { row, put: false })
}
