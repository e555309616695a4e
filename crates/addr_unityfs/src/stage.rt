// How far a file that arrives has been read, and from one stage to the next: the blocks info is read once, when its last
// byte is in, and the header anew only where a text or its last fields may have come in.
ghost use Rattle.std.specs.Prelude.{◌≡◌, ◌≤◌, ◌++◌, ℕ, List, length, position, ◌==◌, false, None, Err, IfOk, IsTrue, ◌↔◌};
ghost use Rattle.addr_unityfs.specs.within.Stages.{stage_of, header_stage, told_stage, fault_in, is_bad};

use crate::error::FsErr;
use crate::fields::first_zero;
use crate::header::{header_of, in_text};
use crate::reader::behind_of;
use crate::sections::sections_of;
use addr_base::NoMemory;
use std::alloc::Global;

/// What the bytes so far have shown.
#[derive(Clone, Copy)]
pub enum Stage {
    /// The header is not in, and nothing is wrong so far; whether the bytes end within one of its texts.
    Head { text: bool },
    /// Nothing is wrong with the header, and the blocks info is in with so many bytes.
    Info { until: u64 },
    /// The blocks info is in, and the file has no fault, whatever follows.
    Rest,
    /// The file has this fault, whatever follows.
    Bad(FsErr),
}

impl Stage {
    pub fn fault(self) -> Option<FsErr>
        ensures { result ≡ fault_in self }
    {
        match self {
            Stage::Bad(fault) => Some(fault),
            Stage::Head { .. } => None,
            Stage::Info { .. } => None,
            Stage::Rest => None,
        }
    }

    pub fn is_bad(self) -> bool
        ensures { result ≡ is_bad self }
    {
        match self {
            Stage::Bad(_) => true,
            Stage::Head { .. } => false,
            Stage::Info { .. } => false,
            Stage::Rest => false,
        }
    }
}

fn told(bytes: &[u8], fault: FsErr) -> Stage
    ensures { result ≡ told_stage bytes.now fault }
{
    match fault {
        FsErr::Short { .. } => Stage::Head {
            text: in_text(bytes),
        },
        FsErr::Signature => Stage::Bad(fault),
        FsErr::Version(_) => Stage::Bad(fault),
        FsErr::NotCombined => Stage::Bad(fault),
        FsErr::Compressed { .. } => Stage::Bad(fault),
        FsErr::Size { .. } => Stage::Bad(fault),
        FsErr::Blocks { .. } => Stage::Bad(fault),
        FsErr::NodeRange { .. } => Stage::Bad(fault),
        FsErr::Path { .. } => Stage::Bad(fault),
        FsErr::NoMemory => Stage::Bad(fault),
    }
}

/// The stage of bytes whose header cannot be read: with a file's last byte the fault is known, whatever it is.
fn without_header(total: u64, bytes: &[u8], fault: FsErr) -> Stage
    ensures { result ≡ header_stage total bytes.now (Err fault) }
{
    if bytes.len() as u64 == total {
        Stage::Bad(fault)
    } else {
        told(bytes, fault)
    }
}

fn has_no_zero(bytes: &[u8]) -> bool
    ensures { IsTrue result ↔ (position (λ b. b == 0) bytes.now ≡ None) }
{
    first_zero(bytes).is_none()
}

/// The stage of the bytes of a file of `total` bytes that are in.
#[tactic(auto, unfolding(crate::specs::within::Stages::stage_of))]
pub fn stage_at(alloc: Global, total: u64, bytes: &[u8]) -> Result<Stage, NoMemory>
    requires { length bytes.now ≤ total }
    ensures { IfOk result (λ s. s ≡ stage_of total bytes.now) }
{
    let len = bytes.len() as u64;
    let (head, end) = match header_of(bytes) {
        Ok(header) => header,
        Err(fault) => return Ok(without_header(total, bytes, fault)),
    };
    let sections = match sections_of(total, head, end) {
        Ok(sections) => sections,
        Err(fault) => return Ok(Stage::Bad(fault)),
    };
    let until = sections.info + head.stored as u64;
    if len < until {
        return Ok(Stage::Info { until });
    }
    match behind_of(alloc, total, head, sections, bytes) {
        Ok(_) => Ok(Stage::Rest),
        Err(FsErr::NoMemory) => Err(NoMemory),
        Err(fault) => Ok(Stage::Bad(fault)),
    }
}

/// The stage of bytes, by that of the first of them. A text is looked through once: only the new bytes are.
pub fn advance(
    alloc: Global,
    total: u64,
    stage: Stage,
    before: usize,
    bytes: &[u8],
) -> Result<Stage, NoMemory>
    requires few { length bytes.now ≤ total }
    requires old { before ≤ length bytes.now }
    ensures { IfOk result (λ s. (old piece : List ℕ) → bytes.now ≡ old ++ piece → length old ≡ before
        → stage ≡ stage_of total old → s ≡ stage_of total bytes.now) }
{
    match stage {
        Stage::Head { text } => {
            if text && (bytes.len() as u64) < total && has_no_zero(&bytes[before..]) {
                Ok(stage)
            } else {
                stage_at(alloc, total, bytes)
            }
        }
        Stage::Info { until } => {
            if (bytes.len() as u64) < until {
                Ok(stage)
            } else {
                stage_at(alloc, total, bytes)
            }
        }
        Stage::Rest => Ok(stage),
        Stage::Bad(_) => Ok(stage),
    }
}
