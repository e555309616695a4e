// Files of a depot, as a command reads them: one that isn't there is a refusal that names it.
ghost use Rattle.std.specs.Prelude.{◌≡◌, ◌≤◌, ◌<◌, ◌^◌, IfOk, length};
ghost use Rattle.addr_base.specs.Files.{SameStore};
ghost use Rattle.addr_cli.specs.Outcome.{CountsFault, IsRead};

use crate::refusal::Refusal;
use addr_base::{Depot, Items, Text, token};
use std::alloc::Global;

/// The bytes of the file with that name.
pub fn read_file<D: Depot>(alloc: Global, depot: &mut D, name: &Text) -> Result<Items<u8>, Refusal>
    ensures read { IsRead (D.now depot.old) (D.now depot.new) name.now result }
    ensures small { IfOk result (λ bytes. length bytes < 2 ^ 32) }
    ensures same { SameStore (D.now depot.old) (D.now depot.new) }
    ensures cause { CountsFault (D.now depot.old) (D.now depot.new) result }
{
    match depot.read(alloc, name.as_str())? {
        Some(bytes) => Ok(Items::from_vec(bytes)),
        None => Err(Refusal::NoFile(token(alloc, name.as_str())?)),
    }
}
