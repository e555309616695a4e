// The header: its fields, and the tests on them.
ghost use Rattle.std.specs.Prelude.{◌≡◌, ◌≤◌, length, IfOk};
ghost use Rattle.addr_unityfs.specs.Faults.{whole, header_read, signature_at, version_at, head_at, header_fault};
ghost use Rattle.addr_unityfs.specs.within.Stages.{start_at, in_text};
ghost use Rattle.addr_unityfs.specs.within.Tails.{tail, head, Reads};

use crate::cursor::Cursor;
use crate::error::FsErr;
use crate::fields::cursor_of;
use crate::flags::{is_combined, kind_of};

/// `UnityFS` and a zero byte, with which each file begins.
pub const SIGNATURE: &[u8] = b"UnityFS\0";

/// The numbers of a header. Its two texts are passed over.
#[derive(Clone, Copy)]
pub struct Head {
    pub version: u32,
    pub size: u64,
    pub stored: u32,
    pub plain: u32,
    pub flags: u32,
}

#[tactic(auto, unfolding(crate::specs::Faults::signature_at, crate::specs::Spelling::signature))]
fn signed(file: Cursor<'_>) -> Result<Cursor<'_>, FsErr>
    ensures { Reads tail result (signature_at (tail file.entry)) }
{
    if file.rest.len() < 8 {
        return Err(FsErr::Short { at: file.end });
    }
    let (front, back) = file.split(8);
    if front.rest == SIGNATURE {
        Ok(back)
    } else {
        Err(FsErr::Signature)
    }
}

#[tactic(auto, unfolding(crate::specs::Faults::version_at))]
fn version_of(rest: Cursor<'_>) -> Result<(u32, Cursor<'_>), FsErr>
    ensures { Reads (λ x. (x.0, tail x.1)) result (version_at (tail rest.entry)) }
{
    let (version, rest) = rest.u32()?;
    if version < 6 || 8 < version {
        return Err(FsErr::Version(version));
    }
    Ok((version, rest))
}

/// The header's fields, and what follows the header.
#[tactic(auto, unfolding(crate::specs::Faults::head_at))]
fn head_of(file: &[u8]) -> Result<(Head, Cursor<'_>), FsErr>
    ensures { Reads (λ x. (head x.0, tail x.1)) result (head_at (whole file.now)) }
{
    let rest = signed(cursor_of(file))?;
    let (version, rest) = version_of(rest)?;
    let (_, rest) = rest.text()?;
    let (_, rest) = rest.text()?;
    let (size, rest) = rest.u64()?;
    let (stored, rest) = rest.u32()?;
    let (plain, rest) = rest.u32()?;
    let (flags, rest) = rest.u32()?;
    Ok((
        Head {
            version,
            size,
            stored,
            plain,
            flags,
        },
        rest,
    ))
}

#[tactic(auto, unfolding(crate::specs::within::Stages::start_at))]
fn start_of(bytes: Cursor<'_>) -> Result<Cursor<'_>, FsErr>
    ensures { Reads tail result (start_at (tail bytes.entry)) }
{
    let rest = signed(bytes)?;
    let (_, rest) = version_of(rest)?;
    Ok(rest)
}

/// Whether bytes end within one of the header's texts.
#[tactic(auto, unfolding(crate::specs::within::Stages::in_text, crate::specs::within::Stages::texts_at))]
pub fn in_text(bytes: &[u8]) -> bool
    ensures { result ≡ in_text bytes.now }
{
    let Ok(rest) = start_of(cursor_of(bytes)) else {
        return false;
    };
    match rest.text() {
        Ok((_, rest)) => rest.text().is_err(),
        Err(_) => true,
    }
}

/// The header's numbers, and the place where it ends.
#[tactic(auto, using(crate::proofs::PastLaws::head_inside), unfolding(crate::specs::Faults::header_read))]
pub fn header_of(bytes: &[u8]) -> Result<(Head, u64), FsErr>
    ensures value { Reads (λ x. (head x.0, x.1)) result (header_read bytes.now) }
    ensures inside { IfOk result (λ x. x.1 ≤ length bytes.now) }
{
    let (head, rest) = head_of(bytes)?;
    Ok((head, rest.place()))
}

/// The tests on the header of a file of so many bytes.
#[tactic(auto, unfolding(crate::specs::Faults::header_fault))]
pub fn header_fault(len: u64, found: Head) -> Option<FsErr>
    ensures { result ≡ header_fault len (head found) }
{
    if found.size != len {
        return Some(FsErr::Size {
            said: found.size.cast_signed(),
            found: len,
        });
    }
    if !is_combined(found.flags) {
        return Some(FsErr::NotCombined);
    }
    let kind = kind_of(found.flags);
    if kind != 0 {
        return Some(FsErr::Compressed { kind });
    }
    if found.stored != found.plain {
        return Some(FsErr::Blocks {
            said: found.stored as u64,
            found: found.plain as u64,
        });
    }
    None
}
