// The fields of a row's line: each is read up to its space, where it is there and only there, with what stands behind.
ghost use Rattle.std.specs.Prelude.{◌≡◌, ℕ, List, MatchOption, IfSome, IfOk};
ghost use Rattle.addr_base.specs.declared.ids.Digest.{Digest};
ghost use Rattle.addr_locate.specs.PlainFields.{IsTokenThen, IsSizeThen, IsDigestThen};

use addr_base::{Digest, NoMemory, Text, parse_hex, untoken_bytes};
use addr_fields::{cut_at, long_number};
use std::alloc::Global;

/// A token's text, and what stands behind its space.
pub(crate) fn token_then(alloc: Global, text: &[u8]) -> Result<Option<(Text, &[u8])>, NoMemory>
    ensures found { IfOk result (λ found. MatchOption found ((t rest : List ℕ) → IsTokenThen text.now t rest → ⊥)
        (λ p. IsTokenThen text.now p.0 p.1.now)) }
    ensures only { IfOk result
        (λ found. IfSome found
        (λ p. (t rest : List ℕ) → IsTokenThen text.now t rest → (t ≡ p.0) × (rest ≡ p.1.now))) }
{
    let Some((token, rest)) = cut_at(text, b' ') else {
        return Ok(None);
    };
    match untoken_bytes(alloc, token)? {
        Some(t) => Ok(Some((t, rest))),
        None => Ok(None),
    }
}

/// A number below 2 to the 64th, and what stands behind its space.
pub(crate) fn size_then(text: &[u8]) -> Option<(u64, &[u8])>
    ensures found { MatchOption result ((n : ℕ) (rest : List ℕ) → IsSizeThen text.now n rest → ⊥)
        (λ p. IsSizeThen text.now p.0 p.1.now) }
    ensures only { IfSome result
        (λ p. (n : ℕ) (rest : List ℕ) → IsSizeThen text.now n rest → (n ≡ p.0) × (rest ≡ p.1.now)) }
{
    match cut_at(text, b' ') {
        Some((digits, rest)) => match long_number(digits) {
            Some(n) => Some((n, rest)),
            None => None,
        },
        None => None,
    }
}

/// A digest, and what stands behind its space.
pub(crate) fn digest_then(text: &[u8]) -> Option<(Digest, &[u8])>
    ensures found { MatchOption result ((d : Digest) (rest : List ℕ) → IsDigestThen text.now d rest → ⊥)
        (λ p. IsDigestThen text.now p.0 p.1.now) }
    ensures only { IfSome result
        (λ p. (d : Digest) (rest : List ℕ) → IsDigestThen text.now d rest → (d ≡ p.0) × (rest ≡ p.1.now)) }
{
    match cut_at(text, b' ') {
        Some((digits, rest)) => match parse_hex(digits) {
            Some(bytes) => Some((Digest(bytes), rest)),
            None => None,
        },
        None => None,
    }
}
