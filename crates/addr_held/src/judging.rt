// What is wrong with bytes that a state or a catalogue speaks of: tests in their order, and no file is read.
ghost use Rattle.std.specs.Prelude.{◌≡◌, ◌↔◌, ◌<◌, ◌^◌, IfOk, IsTrue, List, ℕ, length, map};
ghost use Rattle.addr_base.specs.declared.files.MemFile.{MemFile as File};
ghost use Rattle.addr_held.specs.within.Steps.{Opens, OpensBundle, TellsBytes, TellsDigest};
ghost use Rattle.addr_update.specs.Intact.{IsThere};
ghost use Rattle.hex.specs.Hex.{IsBytes};

use addr_base::{Digest, Guid, NoMemory, digest, is_same};
use addr_cab::{Cab, CabErr, ObjectRow, read_cab};
use addr_state::StateBundle;
use addr_unityfs::{FsErr, read_bundle};
use addr_update::NotIntact;
use std::alloc::Global;

/// What the types say of a file's bytes. Nothing runs.
fn are_bytes(file: &[u8])
    ensures bytes { IsBytes file.now }
    ensures short { length file.now < 2 ^ 63 }
{
    let _len = file.len();
}

/// Whether bytes have another digest than the one that is said.
pub(crate) fn digest_fault(bytes: &[u8], said: Digest) -> Option<NotIntact>
    ensures { TellsDigest bytes.now said result }
{
    let found = digest(bytes);
    if is_same(&found.0, &said.0) {
        None
    } else {
        Some(NotIntact::Digest { said, found })
    }
}

/// Whether a bundle's file has another size than the state says, or else another digest.
fn bytes_fault(old: &StateBundle, file: &[u8]) -> Option<NotIntact>
    ensures { TellsBytes old.now file.now result }
{
    let said = old.size;
    let found = file.len() as u64;
    if found == said {
        digest_fault(file, old.digest)
    } else {
        Some(NotIntact::Size { said, found })
    }
}

/// The objects of a file, or its first fault.
fn open_file(alloc: Global, file: Vec<u8>) -> Result<Result<Cab, NotIntact>, NoMemory>
    ensures { IfOk result (Opens file.items) }
{
    let bundle = match read_bundle(alloc, file.as_slice()) {
        Ok(bundle) => bundle,
        Err(FsErr::NoMemory) => return Err(NoMemory),
        Err(fault) => return Ok(Err(NotIntact::Fs(fault))),
    };
    match read_cab(alloc, file, &bundle) {
        Ok(cab) => Ok(Ok(cab)),
        Err(CabErr::NoMemory) => Err(NoMemory),
        Err(fault) => Ok(Err(NotIntact::Cab(fault))),
    }
}

/// Whether the GUIDs of objects are those that are listed, in their order.
fn are_listed(objects: &[ObjectRow], listed: &[Guid]) -> bool
    ensures { IsTrue result ↔ (map (λ o. o.guid) objects.now ≡ listed.now) }
{
    if objects.len() != listed.len() {
        return false;
    }
    for (object, guid) in objects.iter().zip(listed) {
        if !is_same(&object.guid.0, &guid.0) {
            return false;
        }
    }
    true
}

/// The objects of a bundle's file, or what is first wrong with its bytes: its size, its digest, the file as a bundle, the table
/// of its objects, and which objects these are.
pub(crate) fn judge(
    alloc: Global,
    old: &StateBundle,
    file: Vec<u8>,
) -> Result<Result<Cab, NotIntact>, NoMemory>
    ensures { IfOk result (λ judged. (files : List File) (folder : List ℕ)
        → IsThere files folder old.now file.items → OpensBundle files folder old.now judged) }
{
    are_bytes(file.as_slice());
    match bytes_fault(old, file.as_slice()) {
        Some(fault) => Ok(Err(fault)),
        None => match open_file(alloc, file)? {
            Ok(cab) => {
                if are_listed(cab.objects(), old.objects.as_slice()) {
                    Ok(Ok(cab))
                } else {
                    Ok(Err(NotIntact::Objects))
                }
            }
            Err(fault) => Ok(Err(fault)),
        },
    }
}
