// One field at a time: each reader tests that its field is there, and hands on the cursor behind it.
ghost use Rattle.std.specs.Prelude.{◌≡◌, ◌≤◌, ◌<◌, ◌^◌, length, IfOk};
ghost use Rattle.std.specs.Int.{w32, w64};
ghost use Rattle.std.specs.Str.{bytes_eq};
ghost use Rattle.addr_unityfs.specs.Faults.{whole, place};
ghost use Rattle.addr_cab.specs.Spelling.{magic, is_above};
ghost use Rattle.addr_cab.specs.Faults.{bytes_at, number_at, magic_at, above_at};
ghost use Rattle.addr_cab.specs.Tails.{tail, Reads};
ghost use Rattle.addr_cab.specs.declared.error.CabErr.TheVariants.{Short};

use crate::cursor::Cursor;
use crate::error::CabErr;

/// The bytes with which a table begins.
pub const MAGIC: &[u8] = b"ADT1";

pub fn cursor_of(table: &[u8]) -> Cursor<'_>
    ensures { tail result ≡ whole table.now }
{
    Cursor {
        end: table.len() as u64,
        rest: table,
    }
}

fn is_above(last: Option<[u8; 16]>, bytes: [u8; 16]) -> bool
    ensures { result ≡ is_above last bytes }
{
    match last {
        None => true,
        Some(before) => before.cmp(&bytes).is_lt(),
    }
}

#[tactic(auto, unfolding(crate::specs::Spelling::magic))]
fn is_magic(bytes: &[u8]) -> bool
    ensures { result ≡ bytes_eq bytes.now magic }
{
    bytes == MAGIC
}

impl<'a> Cursor<'a> {
    pub fn place(self) -> u64
        ensures { result ≡ place (tail self.entry) }
    {
        self.end.saturating_sub(self.rest.len() as u64)
    }

    /// The fault of a field that does not fit here.
    pub fn short(self) -> CabErr
        ensures { result ≡ Short (place (tail self.entry)) }
    {
        CabErr::Short { at: self.place() }
    }

    #[tactic(auto, unfolding(crate::specs::Faults::bytes_at))]
    pub fn bytes(self, len: usize) -> Result<(&'a [u8], Cursor<'a>), CabErr>
        ensures value { Reads (λ x. (x.0.now, tail x.1)) result (bytes_at len (tail self.entry)) }
        ensures len { IfOk result (λ x. length x.0.now ≡ len) }
    {
        if self.rest.len() < len {
            return Err(self.short());
        }
        let (front, back) = self.rest.split_at(len);
        Ok((
            front,
            Cursor {
                end: self.end,
                rest: back,
            },
        ))
    }

    pub fn sixteen(self) -> Result<([u8; 16], Cursor<'a>), CabErr>
        ensures { Reads (λ x. (x.0, tail x.1)) result (bytes_at 16 (tail self.entry)) }
    {
        let (bytes, rest) = self.bytes(16)?;
        let mut sixteen = [0u8; 16];
        sixteen.copy_from_slice(bytes);
        Ok((sixteen, rest))
    }

    #[tactic(auto, unfolding(crate::specs::Faults::number_at))]
    pub fn u32(self) -> Result<(u32, Cursor<'a>), CabErr>
        ensures { Reads (λ x. (x.0, tail x.1)) result (number_at w32 (tail self.entry)) }
    {
        let (bytes, rest) = self.bytes(4)?;
        let mut four = [0u8; 4];
        four.copy_from_slice(bytes);
        Ok((u32::from_le_bytes(four), rest))
    }

    #[tactic(auto, unfolding(crate::specs::Faults::number_at))]
    pub fn u64(self) -> Result<(u64, Cursor<'a>), CabErr>
        ensures { Reads (λ x. (x.0, tail x.1)) result (number_at w64 (tail self.entry)) }
    {
        let (bytes, rest) = self.bytes(8)?;
        let mut eight = [0u8; 8];
        eight.copy_from_slice(bytes);
        Ok((u64::from_le_bytes(eight), rest))
    }

    #[tactic(auto, unfolding(crate::specs::Faults::magic_at))]
    pub fn magic(self) -> Result<Cursor<'a>, CabErr>
        ensures { Reads tail result (magic_at (tail self.entry)) }
    {
        let (bytes, rest) = self.bytes(4)?;
        if is_magic(bytes) {
            Ok(rest)
        } else {
            Err(CabErr::Magic)
        }
    }

    /// 16 bytes that stand above the last ones of their kind.
    #[tactic(auto, unfolding(crate::specs::Faults::above_at))]
    pub fn above(self, last: Option<[u8; 16]>) -> Result<([u8; 16], Cursor<'a>), CabErr>
        ensures { Reads (λ x. (x.0, tail x.1)) result (above_at last (tail self.entry)) }
    {
        let (bytes, rest) = self.sixteen()?;
        if is_above(last, bytes) {
            Ok((bytes, rest))
        } else {
            Err(CabErr::Order { at: self.place() })
        }
    }
}
