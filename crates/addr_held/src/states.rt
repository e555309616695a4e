// The content state that a catalogue names.
ghost use Rattle.std.specs.Prelude.{◌≡◌, IfOk, IfSome, Some};
ghost use Rattle.addr_base.specs.Files.{FaultRose, SameStore};
ghost use Rattle.addr_held.specs.Opening.{HeldRose};
ghost use Rattle.addr_held.specs.within.Steps.{JudgesState, ReadsState, TellsNamed, TellsState};
ghost use Rattle.addr_state.specs.Sound.{IsSound};

use crate::error::HeldErr;
use crate::judging::digest_fault;
use crate::naming::{path_of, state_file};
use addr_base::{Depot, Digest, NoMemory, Text};
use addr_state::{State, read_state, state_laws};
use addr_update::NotIntact;
use std::alloc::Global;

/// The state that bytes are, or the number of its first fault.
fn read_bytes(alloc: Global, bytes: &[u8]) -> Result<Result<State, NotIntact>, NoMemory>
    ensures { IfOk result (TellsState bytes.now) }
{
    match read_state(alloc, bytes) {
        Ok(state) => Ok(Ok(state)),
        Err(fault) => match fault.number() {
            Some(number) => Ok(Err(NotIntact::State(number))),
            None => Err(NoMemory),
        },
    }
}

/// Whether bytes have another digest than the one that is named, if one is.
fn named_fault(bytes: &[u8], named: Option<Digest>) -> Option<NotIntact>
    ensures { TellsNamed bytes.now named result }
{
    match named {
        Some(said) => digest_fault(bytes, said),
        None => None,
    }
}

/// The state that bytes are, where they have the digest that is named; or what is first wrong with them. They are read before
/// their digest is compared.
fn judge_state(
    alloc: Global,
    bytes: &[u8],
    named: Option<Digest>,
) -> Result<Result<State, NotIntact>, NoMemory>
    ensures { IfOk result (JudgesState bytes.now named) }
{
    match read_bytes(alloc, bytes)? {
        Ok(state) => match named_fault(bytes, named) {
            Some(fault) => Ok(Err(fault)),
            None => Ok(Ok(state)),
        },
        Err(fault) => Ok(Err(fault)),
    }
}

/// The state of a folder whose catalogue names it so.
pub(crate) fn read_named<D: Depot>(
    alloc: Global,
    depot: &mut D,
    folder: &str,
    named: Option<Digest>,
) -> Result<State, HeldErr>
    ensures reads { IfSome (D.now depot.old).files (λ files. ReadsState files folder.now named result) }
    ensures sound { IfOk result IsSound }
    ensures same { SameStore (D.now depot.old) (D.now depot.new) }
    ensures cause { HeldRose (D.now depot.old).faults (D.now depot.new).faults result }
{
    state_laws();
    let file = state_file(alloc, named)?;
    let path = path_of(alloc, folder, file.as_str())?;
    match depot.read(alloc, path.as_str())? {
        None => Err(HeldErr::NoRelease(path)),
        Some(bytes) => match judge_state(alloc, bytes.as_slice(), named)? {
            Ok(state) => Ok(state),
            Err(why) => Err(HeldErr::BadRelease { file, why }),
        },
    }
}
