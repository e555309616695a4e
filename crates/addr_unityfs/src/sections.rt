// Where the blocks info and the data lie behind the header, as places counted from the front: the info stands first, or
// at the end of the file. The file's length is given, so that it also serves a file that is still arriving.
ghost use Rattle.std.specs.Prelude.{◌≡◌, ◌≤◌, ◌+◌, length, IfOk};
ghost use Rattle.addr_unityfs.specs.Faults.{laid, sections_at, sections_read, data_at};
ghost use Rattle.addr_unityfs.specs.within.Tails.{head, sections, Reads};

use crate::error::FsErr;
use crate::flags::{data_gap, header_gap, is_at_end};
use crate::header::{Head, header_fault};

/// The place of the blocks info, and the places from which and to which the data and its padding may reach.
#[derive(Clone, Copy)]
pub struct Sections {
    pub info: u64,
    pub from: u64,
    pub to: u64,
}

/// The sections of a file of `len` bytes whose header ends at a place.
#[tactic(auto, unfolding(crate::specs::Faults::sections_at))]
fn sections_at(len: u64, found: Head, at: u64) -> Result<Sections, FsErr>
    requires { at ≤ len }
    ensures value { Reads sections result (sections_at len (head found) at) }
    ensures inside { IfOk result (λ l. l.info + found.stored ≤ len) }
    ensures ordered { IfOk result (λ l. (l.from ≤ l.to) × (l.to ≤ len)) }
{
    let gap = header_gap(found.version, at) as u64;
    let stored = found.stored as u64;
    if len - at < gap + stored {
        return Err(FsErr::Short { at: len });
    }
    if is_at_end(found.flags) {
        Ok(Sections {
            info: len - stored,
            from: at + gap,
            to: len - stored,
        })
    } else {
        Ok(Sections {
            info: at + gap,
            from: at + gap + stored,
            to: len,
        })
    }
}

/// The sections of a file of `len` bytes, behind the tests on its header.
#[tactic(auto, unfolding(crate::specs::Faults::sections_read))]
pub fn sections_of(len: u64, found: Head, at: u64) -> Result<Sections, FsErr>
    requires { at ≤ len }
    ensures value { Reads sections result (sections_read len (head found) at) }
    ensures inside { IfOk result (λ l. l.info + found.stored ≤ len) }
    ensures ordered { IfOk result (λ l. (l.from ≤ l.to) × (l.to ≤ len)) }
{
    if let Some(fault) = header_fault(len, found) {
        return Err(fault);
    }
    sections_at(len, found, at)
}

/// Where so many bytes of data begin in a file of `len` bytes, if they are there.
#[tactic(auto, unfolding(crate::specs::Faults::data_at))]
pub fn data_start(len: u64, flags: u32, sum: u64, places: Sections) -> Result<u64, FsErr>
    requires { (places.from ≤ places.to) × (places.to ≤ len) }
    ensures { result ≡ data_at len flags sum (sections places) }
{
    let gap = data_gap(flags, places.from) as u64;
    let room = places.to - places.from;
    if room < gap {
        return Err(FsErr::Short { at: len });
    }
    let found = room - gap;
    if found < sum {
        return Err(FsErr::Blocks { said: sum, found });
    }
    Ok(places.from + gap)
}
