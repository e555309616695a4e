// Putting one file: it is read first, and put only where it isn't there with the same bytes.
ghost use Rattle.std.specs.Prelude.{◌≡◌, ◌∷◌, [], IfOk, IfSome, Some};
ghost use Rattle.std.specs.Option.{option_map};
ghost use Rattle.addr_base.specs.Files.{FaultRose, SameStore, file_at};
ghost use Rattle.addr_build.specs.Putting.{Lays, file_of};
ghost use Rattle.addr_build.specs.within.Testing.{IsSpotOf};

use addr_base::{Depot, DepotErr, is_same};
use std::alloc::Global;

/// What stands under a name, beside some bytes.
#[derive(Clone, Copy)]
pub(crate) enum Spot {
    Free,
    /// The same bytes.
    Same,
    /// Other bytes.
    Other,
}

fn spot_of(found: Option<Vec<u8>>, bytes: &[u8]) -> Spot
    ensures { IsSpotOf (option_map (λ v. v.items) found) bytes.now result }
{
    match found {
        None => Spot::Free,
        Some(there) => {
            if is_same(there.as_slice(), bytes) {
                Spot::Same
            } else {
                Spot::Other
            }
        }
    }
}

/// Reads the file with that name, compares it, and lets it go.
pub(crate) fn look<D: Depot>(
    alloc: Global,
    depot: &mut D,
    name: &str,
    bytes: &[u8],
) -> Result<Spot, DepotErr>
    ensures spot { IfSome (D.now depot.old).files
        (λ files. IfOk result (IsSpotOf (file_at name.now files) bytes.now)) }
    ensures same { SameStore (D.now depot.old) (D.now depot.new) }
    ensures cause { FaultRose (D.now depot.old).faults (D.now depot.new).faults result }
{
    let found = depot.read(alloc, name)?;
    Ok(spot_of(found, bytes))
}

/// Puts a file in place of whatever has its name.
pub(crate) fn put<D: Depot>(
    alloc: Global,
    depot: &mut D,
    name: &str,
    bytes: &[u8],
) -> Result<(), DepotErr>
    ensures puts { Lays (file_of name.now bytes.now ∷ []) (D.now depot.old) (D.now depot.new) result }
    ensures cause { FaultRose (D.now depot.old).faults (D.now depot.new).faults result }
{
    depot.put(alloc, name, bytes)
}

/// Puts a file in place of whatever has its name, unless it is there with the same bytes.
pub(crate) fn put_file<D: Depot>(
    alloc: Global,
    depot: &mut D,
    name: &str,
    bytes: &[u8],
) -> Result<(), DepotErr>
    ensures puts { Lays (file_of name.now bytes.now ∷ []) (D.now depot.old) (D.now depot.new) result }
    ensures again { IfSome (D.now depot.old).files
        (λ files. file_at name.now files ≡ Some bytes.now → SameStore (D.now depot.old) (D.now depot.new)) }
    ensures cause { FaultRose (D.now depot.old).faults (D.now depot.new).faults result }
{
    match look(alloc, depot, name, bytes)? {
        Spot::Same => Ok(()),
        Spot::Free | Spot::Other => put(alloc, depot, name, bytes),
    }
}
