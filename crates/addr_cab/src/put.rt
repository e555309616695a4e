// One field at a time behind what was written, little-endian. Where memory is refused the bytes are given up by the
// caller.
ghost use Rattle.std.specs.Prelude.{◌≡◌, ◌++◌, ◌<◌, ◌^◌, length, OnOk};
ghost use Rattle.std.specs.Int.{w32, w64, to_le_bytes};
ghost use Rattle.std.specs.List.{flat_map, All, AllByRecursion};
ghost use Rattle.addr_cab.specs.Spelling.{home_number, ref_text, row_text};
ghost use Rattle.addr_cab.specs.Written.{placed_at, IsHome, IsTypedRef, IsTyped};

use crate::names::Names;
use crate::object::ObjectOut;
use addr_base::{Digest, Home, NoMemory, RefTo};

pub fn put_u32(out: &mut Vec<u8>, n: u32) -> Result<(), NoMemory>
    ensures { OnOk result (out.new.items ≡ out.old.items ++ to_le_bytes w32 n) }
{
    out.extend_from_slice(&n.to_le_bytes())?;
    Ok(())
}

fn put_u64(out: &mut Vec<u8>, n: u64) -> Result<(), NoMemory>
    ensures { OnOk result (out.new.items ≡ out.old.items ++ to_le_bytes w64 n) }
{
    out.extend_from_slice(&n.to_le_bytes())?;
    Ok(())
}

pub fn put_names(out: &mut Vec<u8>, names: &[Digest]) -> Result<(), NoMemory>
    ensures { OnOk result (out.new.items ≡ out.old.items ++ flat_map (λ d. d.0) names.now) }
{
    for name in names {
        out.extend_from_slice(&name.0)?;
    }
    Ok(())
}

/// 0 for the own bundle, and the place of another one counted from 1.
fn home_number(names: Names<'_>, home: Home) -> u32
    requires { home_number names.names.now home < 2 ^ 32 }
    ensures number { result ≡ home_number names.entry.names.now home }
    ensures typed { IsHome home }
{
    match home {
        Home::Own => 0,
        Home::Other(name) => names.place_of(name) as u32 + 1,
    }
}

#[tactic(auto, using(crate::proofs::PutLaws::two))]
fn put_ref(out: &mut Vec<u8>, names: Names<'_>, reference: &RefTo) -> Result<(), NoMemory>
    requires { home_number names.names.now reference.now.home < 2 ^ 32 }
    ensures text { OnOk result (out.new.items
        ≡ out.old.items ++ ref_text names.entry.names.now reference.now) }
    ensures typed { OnOk result (IsTypedRef reference.now) }
{
    out.extend_from_slice(&reference.guid.0)?;
    put_u32(out, home_number(names, reference.home))?;
    Ok(())
}

fn put_refs(out: &mut Vec<u8>, names: Names<'_>, refs: &[RefTo]) -> Result<(), NoMemory>
    requires { All (λ r. home_number names.names.now r.home < 2 ^ 32) refs.now }
    ensures text { OnOk result (out.new.items
        ≡ out.old.items ++ flat_map (ref_text names.entry.names.now) refs.now) }
    ensures typed { OnOk result (AllByRecursion IsTypedRef refs.now) }
{
    for reference in refs {
        put_ref(out, names, reference)?;
    }
    Ok(())
}

/// A row of the table: an object whose bytes begin at a place of the data.
pub fn put_row(
    out: &mut Vec<u8>,
    names: Names<'_>,
    object: &ObjectOut,
    offset: u64,
) -> Result<(), NoMemory>
    requires few { length object.now.refs < 2 ^ 32 }
    requires numbers { All (λ r. home_number names.names.now r.home < 2 ^ 32) object.now.refs }
    ensures row { OnOk result (out.new.items
        ≡ out.old.items ++ row_text names.entry.names.now (placed_at offset object.now)) }
    ensures typed { OnOk result (IsTyped object.now) }
{
    out.extend_from_slice(&object.guid.0)?;
    put_u64(out, offset)?;
    put_u64(out, object.bytes.len() as u64)?;
    put_u32(out, object.refs.len() as u32)?;
    put_refs(out, names, object.refs.as_slice())?;
    Ok(())
}
