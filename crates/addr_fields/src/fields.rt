// Exact readers of the parts of a line: each finds its part where it is there, and only there. None takes memory.
ghost use Rattle.std.specs.Prelude.{◌≡◌, ◌==◌, ◌++◌, ◌↔◌, ◌<◌, ℕ, List, MatchOption, IfSome, IsTrue, position, false, decimal};
ghost use Rattle.addr_fields.specs.Fields.{has_byte, IsCut, IsNumber, IsNumberThen, IsWordNumber, IsWordPair};

use addr_base::is_same;
use itoa::Buffer;

/// What stands behind the word, where the text begins with it.
pub fn after_word<'a>(text: &'a [u8], word: &[u8]) -> Option<&'a [u8]>
    ensures found { MatchOption result ((rest : List ℕ) → text.now ≡ word.now ++ rest → ⊥)
        (λ rest. text.now ≡ word.now ++ rest.now) }
    ensures only { IfSome result (λ rest. (other : List ℕ) → text.now ≡ word.now ++ other → other ≡ rest.now) }
{
    if text.len() < word.len() {
        return None;
    }
    if is_same(&text[..word.len()], word) {
        Some(&text[word.len()..])
    } else {
        None
    }
}

fn place_of(text: &[u8], mark: u8) -> Option<usize>
    ensures { result ≡ position (λ b. b == mark) text.now }
{
    text.iter().position(|b| *b == mark)
}

/// What stands before the first mark and what stands behind it, or None where there is no mark.
pub fn cut_at(text: &[u8], mark: u8) -> Option<(&[u8], &[u8])>
    ensures { MatchOption result (has_byte mark text.now ≡ false) (λ cut. IsCut mark text.now cut.0.now cut.1.now) }
{
    match place_of(text, mark) {
        Some(at) => Some((&text[..at], &text[at + 1..])),
        None => None,
    }
}

fn is_spelled(n: u64, text: &[u8]) -> bool
    ensures { IsTrue result ↔ (text.now ≡ decimal n) }
{
    let mut buffer = Buffer::new();
    is_same(buffer.format(n).as_bytes(), text)
}

fn spelled_number(digits: &str) -> Option<u64>
    ensures { MatchOption result ((n : ℕ) → IsNumber 64 digits.now n → ⊥) (λ n. IsNumber 64 digits.now n) }
{
    match digits.parse::<u64>() {
        Ok(n) => {
            if is_spelled(n, digits.as_bytes()) {
                Some(n)
            } else {
                None
            }
        }
        Err(_) => None,
    }
}

/// The number that decimal digits spell, without a sign or a leading zero.
pub fn long_number(text: &[u8]) -> Option<u64>
    ensures { MatchOption result ((n : ℕ) → IsNumber 64 text.now n → ⊥) (λ n. IsNumber 64 text.now n) }
{
    match std::str::from_utf8(text) {
        Ok(digits) => spelled_number(digits),
        Err(_) => None,
    }
}

/// The same for a number below 2 to the 32nd.
pub fn number(text: &[u8]) -> Option<u32>
    ensures { MatchOption result ((n : ℕ) → IsNumber 32 text.now n → ⊥) (λ n. IsNumber 32 text.now n) }
{
    match long_number(text) {
        Some(n) => {
            if n <= u32::MAX as u64 {
                Some(n as u32)
            } else {
                None
            }
        }
        None => None,
    }
}

/// The same for a number below 2 to the 16th.
pub fn short_number(text: &[u8]) -> Option<u16>
    ensures { MatchOption result ((n : ℕ) → IsNumber 16 text.now n → ⊥) (λ n. IsNumber 16 text.now n) }
{
    match long_number(text) {
        Some(n) => {
            if n <= u16::MAX as u64 {
                Some(n as u16)
            } else {
                None
            }
        }
        None => None,
    }
}

/// A number, a space, and the rest of the text.
pub fn number_then(text: &[u8]) -> Option<(u32, &[u8])>
    ensures found { MatchOption result ((n : ℕ) (rest : List ℕ) → IsNumberThen text.now n rest → ⊥)
        (λ p. IsNumberThen text.now p.0 p.1.now) }
    ensures only { IfSome result
        (λ p. (n : ℕ) (rest : List ℕ) → IsNumberThen text.now n rest → (n ≡ p.0) × (rest ≡ p.1.now)) }
{
    match cut_at(text, b' ') {
        Some((digits, rest)) => match number(digits) {
            Some(n) => Some((n, rest)),
            None => None,
        },
        None => None,
    }
}

/// A word and then a number below 2 to the 64th.
pub fn long_after(text: &[u8], word: &[u8]) -> Option<u64>
    ensures { MatchOption result ((n : ℕ) → IsWordNumber 64 word.now text.now n → ⊥)
        (λ n. IsWordNumber 64 word.now text.now n) }
{
    let rest = after_word(text, word)?;
    long_number(rest)
}

/// The same below 2 to the 32nd.
pub fn number_after(text: &[u8], word: &[u8]) -> Option<u32>
    ensures { MatchOption result ((n : ℕ) → IsWordNumber 32 word.now text.now n → ⊥)
        (λ n. IsWordNumber 32 word.now text.now n) }
{
    let rest = after_word(text, word)?;
    number(rest)
}

/// The same below 2 to the 16th.
pub fn short_after(text: &[u8], word: &[u8]) -> Option<u16>
    ensures { MatchOption result ((n : ℕ) → IsWordNumber 16 word.now text.now n → ⊥)
        (λ n. IsWordNumber 16 word.now text.now n) }
{
    let rest = after_word(text, word)?;
    short_number(rest)
}

/// A word, a number, a space and a number.
pub fn two_numbers_after(text: &[u8], word: &[u8]) -> Option<(u32, u32)>
    ensures { MatchOption result ((a b : ℕ) → IsWordPair word.now text.now a b → ⊥)
        (λ p. IsWordPair word.now text.now p.0 p.1) }
{
    let (a, rest) = number_then(after_word(text, word)?)?;
    let b = number(rest)?;
    Some((a, b))
}
