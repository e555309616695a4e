// A word of a line with the space behind it.
ghost use Rattle.std.specs.Prelude.{◌≡◌, ℕ, List, MatchOption, IfSome};
ghost use Rattle.addr_fields.specs.Fields.{IsCut};

use addr_fields::cut_at;

/// A word, and what stands behind its space.
pub fn word_then(text: &[u8]) -> Option<(&[u8], &[u8])>
    ensures found { MatchOption result ((word rest : List ℕ) → IsCut 32 text.now word rest → ⊥)
        (λ p. IsCut 32 text.now p.0.now p.1.now) }
    ensures only { IfSome result (λ p. (word rest : List ℕ) → IsCut 32 text.now word rest
        → (word ≡ p.0.now) × (rest ≡ p.1.now)) }
{
    match cut_at(text, b' ') {
        Some((word, rest)) => Some((word, rest)),
        None => None,
    }
}
