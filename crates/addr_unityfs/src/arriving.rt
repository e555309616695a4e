// A file while it arrives: the bytes that are kept, and the digest of all that came.
ghost use Rattle.std.specs.Prelude.{◌≡◌, ◌≤◌, length};
ghost use Rattle.addr_unityfs.specs.within.Stages.{stage_of};

use crate::bundle::Bundle;
use crate::error::FsErr;
use crate::stage::Stage;
use addr_base::{Digest, Items};
use sha2::Sha256;
use std::alloc::Global;

/// A bundle file of a known length that is read while it arrives in pieces.
#[derive(Drop)]
pub struct BundleReader {
    pub(crate) alloc: Global,
    pub(crate) total: u64,
    /// How many bytes came; None where they are more than a u64 says.
    pub(crate) count: Option<u64>,
    pub(crate) kept: Vec<u8>,
    pub(crate) hasher: Sha256,
    pub(crate) stage: Stage,
    ghost few: { length kept.items ≤ total },
    ghost staged: { stage ≡ stage_of total kept.items },
}

/// What became of a file that was fed whole.
#[derive(Drop)]
pub enum Arrived {
    /// So many bytes came, or more than a u64 says, and not as many as the file has.
    Size {
        got: u64,
    },
    /// The digest of all bytes, and the bytes with their bundle or the file's first fault.
    File {
        digest: Digest,
        read: Result<(Items<u8>, Bundle), FsErr>,
    },
}
