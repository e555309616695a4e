// `inspect`: a bundle file's nodes, and the objects of its asset table or why it has none.
ghost use Rattle.std.specs.Prelude.{◌≡◌, ◌≢◌, ◌⊎◌, Ok, Err, IfOk};
ghost use Rattle.addr_base.specs.Files.{SameStore};
ghost use Rattle.addr_base.specs.Tokens.{token_of};
ghost use Rattle.addr_unityfs.specs.Faults.{bundle_read, fault_number};
ghost use Rattle.addr_unityfs.specs.Format.{IsBundle};
ghost use Rattle.addr_unityfs.specs.declared.error.FsErr.TheVariants as faults;
ghost use Rattle.addr_cli.specs.Inspecting.{IsBadBundle, Shows};
ghost use Rattle.addr_cli.specs.Outcome.{CommandEnds, CountsFault};
ghost use Rattle.addr_cli.specs.Words.{inspect};

use crate::files::read_file;
use crate::refusal::Refusal;
use addr_base::{Depot, Text, token};
use addr_cab::{CabErr, read_cab};
use addr_texts::inspect_text;
use addr_unityfs::{Bundle, FsErr, read_bundle};
use std::alloc::Global;

/// What the file holds, as text.
pub fn inspect_file<D: Depot>(alloc: Global, file: &Text, depot: &mut D) -> Result<Text, Refusal>
    ensures ends { CommandEnds (inspect file.now) (D.now depot.old) (D.now depot.new) result }
    ensures cause { CountsFault (D.now depot.old) (D.now depot.new) result }
    ensures same { SameStore (D.now depot.old) (D.now depot.new) }
{
    let bytes = read_file(alloc, depot, file)?;
    match read_bundle(alloc, bytes.as_slice()) {
        Ok(bundle) => shown(alloc, bytes.into_vec(), &bundle),
        Err(fault) => Err(bad_bundle(alloc, file, fault)),
    }
}

fn shown(alloc: Global, bytes: Vec<u8>, bundle: &Bundle) -> Result<Text, Refusal>
    requires { IsBundle bytes.items bundle.now }
    ensures { Shows bytes.items bundle.now result }
{
    let cab = read_cab(alloc, bytes, bundle);
    if let Err(CabErr::NoMemory) = cab {
        return Err(Refusal::NoMemory);
    }
    let text = inspect_text(alloc, bundle, &cab)?;
    Ok(text)
}

fn bad_bundle(alloc: Global, file: &Text, fault: FsErr) -> Refusal
    ensures { IsBadBundle file.now fault result }
{
    let Some(number) = fault.number() else {
        return Refusal::NoMemory;
    };
    match token(alloc, file.as_str()) {
        Ok(name) => Refusal::BadBundle(name, number),
        Err(_) => Refusal::NoMemory,
    }
}
