// One field at a time: each reader tests that its field is there, and hands on the cursor behind it.
ghost use Rattle.std.specs.Prelude.{◌≡◌, ◌+◌, ◌≤◌, ◌<◌, length, take, drop, position, ◌==◌, IfSome};
ghost use Rattle.std.specs.Int.{w16, w32, w64};
ghost use Rattle.addr_unityfs.specs.Faults.{whole, part, place, past, upto, number_at, skip_at, text_at};
ghost use Rattle.addr_unityfs.specs.within.Tails.{tail, Reads};
ghost use Rattle.addr_unityfs.specs.declared.error.FsErr.TheVariants.{Short};

use crate::cursor::Cursor;
use crate::error::FsErr;

pub fn cursor_of(file: &[u8]) -> Cursor<'_>
    ensures { tail result ≡ whole file.now }
{
    Cursor {
        end: file.len() as u64,
        rest: file,
    }
}

/// The bytes of a file from a place on, so many of them.
pub fn part_of(file: &[u8], at: usize, len: usize) -> Cursor<'_>
    requires { at + len ≤ length file.now }
    ensures { tail result ≡ part at len file.now }
{
    let (_, behind) = file.split_at(at);
    let (rest, _) = behind.split_at(len);
    Cursor {
        end: at as u64 + len as u64,
        rest,
    }
}

impl<'a> Cursor<'a> {
    pub fn place(self) -> u64
        ensures { result ≡ place (tail self.entry) }
    {
        self.end.saturating_sub(self.rest.len() as u64)
    }

    /// The fault of a field that does not fit here.
    pub fn short(self) -> FsErr
        ensures { result ≡ Short (place (tail self.entry)) }
    {
        FsErr::Short { at: self.place() }
    }

    /// The first bytes, and those behind them.
    pub fn split(self, len: usize) -> (Cursor<'a>, Cursor<'a>)
        requires { len ≤ length self.rest.now }
        ensures front { tail result.0 ≡ upto len (tail self.entry) }
        ensures back { tail result.1 ≡ past len (tail self.entry) }
    {
        let (front, back) = self.rest.split_at(len);
        let front_end = self.place() + len as u64;
        (
            Cursor {
                end: front_end,
                rest: front,
            },
            Cursor {
                end: self.end,
                rest: back,
            },
        )
    }

    #[tactic(auto, unfolding(crate::specs::Faults::number_at))]
    pub fn u16(self) -> Result<(u16, Cursor<'a>), FsErr>
        ensures { Reads (λ x. (x.0, tail x.1)) result (number_at w16 (tail self.entry)) }
    {
        if self.rest.len() < 2 {
            return Err(self.short());
        }
        let (front, back) = self.rest.split_at(2);
        Ok((
            u16::from_be_bytes([front[0], front[1]]),
            Cursor {
                end: self.end,
                rest: back,
            },
        ))
    }

    #[tactic(auto, unfolding(crate::specs::Faults::number_at))]
    pub fn u32(self) -> Result<(u32, Cursor<'a>), FsErr>
        ensures { Reads (λ x. (x.0, tail x.1)) result (number_at w32 (tail self.entry)) }
    {
        if self.rest.len() < 4 {
            return Err(self.short());
        }
        let (front, back) = self.rest.split_at(4);
        Ok((
            u32::from_be_bytes([front[0], front[1], front[2], front[3]]),
            Cursor {
                end: self.end,
                rest: back,
            },
        ))
    }

    #[tactic(auto, unfolding(crate::specs::Faults::number_at))]
    pub fn u64(self) -> Result<(u64, Cursor<'a>), FsErr>
        ensures { Reads (λ x. (x.0, tail x.1)) result (number_at w64 (tail self.entry)) }
    {
        if self.rest.len() < 8 {
            return Err(self.short());
        }
        let (front, back) = self.rest.split_at(8);
        Ok((
            u64::from_be_bytes([
                front[0], front[1], front[2], front[3], front[4], front[5], front[6], front[7],
            ]),
            Cursor {
                end: self.end,
                rest: back,
            },
        ))
    }

    #[tactic(auto, unfolding(crate::specs::Faults::skip_at))]
    pub fn skip(self, len: usize) -> Result<Cursor<'a>, FsErr>
        ensures { Reads tail result (skip_at len (tail self.entry)) }
    {
        if self.rest.len() < len {
            return Err(self.short());
        }
        Ok(self.split(len).1)
    }

    /// A text without the zero byte that ends it.
    #[tactic(auto, unfolding(crate::specs::Faults::text_at))]
    pub fn text(self) -> Result<(&'a [u8], Cursor<'a>), FsErr>
        ensures { Reads (λ x. (x.0.now, tail x.1)) result (text_at (tail self.entry)) }
    {
        let Some(len) = first_zero(self.rest) else {
            return Err(self.short());
        };
        Ok((
            &self.rest[..len],
            Cursor {
                end: self.end,
                rest: &self.rest[len + 1..],
            },
        ))
    }
}

pub fn first_zero(bytes: &[u8]) -> Option<usize>
    ensures place { result ≡ position (λ b. b == 0) bytes.now }
    ensures inside { IfSome result (λ n. n < length bytes.now) }
{
    bytes.iter().position(|b| *b == 0)
}
