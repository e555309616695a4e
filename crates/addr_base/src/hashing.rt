// The digest by which bundles, catalogues and assets are named: SHA-256 cut to 16 bytes.
ghost use Rattle.std.specs.Prelude.{◌≡◌};
ghost use Rattle.addr_base.specs.Ids.{digest_of};

use crate::ids::Digest;
use sha2::{Digest as HashFunction, Sha256};

/// The first 16 bytes of the SHA-256 of the bytes, in one pass.
pub fn digest(bytes: &[u8]) -> Digest
    ensures { result.0 ≡ digest_of bytes.now }
{
    let whole = Sha256::digest(bytes);
    let mut first = [0u8; 16];
    first.copy_from_slice(&whole[..16]);
    Digest(first)
}
