// Tokens: a text as one field of a line. A token without an escape is its own text. Any other is read loosely, the text
// is written again and compared, so that each text has one token and nothing else is one. A reader that tests each escape
// was refused: it says the same twice.
ghost use Rattle.std.specs.Prelude.{◌≡◌, ◌≢◌, ◌<◌, ◌++◌, ◌∷◌, [], ℕ, List, Option, IfOk, IfSome, OnOk, string_bytes, slice_index};
ghost use Rattle.std.specs.List.{AllPass, flat_map, list_all};
ghost use Rattle.std.specs.Str.{IsUtf8};
ghost use Rattle.hex.specs.Hex.{upper_digits};
ghost use Rattle.addr_base.specs.LooseTokens.{loose_byte, loose_digit, loose_place, loose_text};
ghost use Rattle.addr_base.specs.declared.tokens.Place.TheVariants.{Plain};
ghost use Rattle.addr_base.specs.Tokens.{IsMark, ReadsToken, is_plain, is_token_byte, token_byte, token_of};

use crate::byte_strings::is_same;
use crate::memory::NoMemory;
use crate::text::Text;
use std::alloc::Global;

const UPPER_DIGITS: &[u8; 16] = b"0123456789ABCDEF";

/// The token of a text: up to three bytes for each byte of the text, and one byte for the empty text.
pub fn token(alloc: Global, text: &str) -> Result<Text, NoMemory>
    ensures { IfOk result (λ token. token ≡ token_of text.now) }
{
    if text.is_empty() {
        return Text::copy_of(alloc, "%");
    }
    let token = escaped(alloc, text.as_bytes())?;
    Ok(Text::from_string(token))
}

/// The text that has this token, or None where no text has it.
pub fn untoken(alloc: Global, token: &str) -> Result<Option<Text>, NoMemory>
    ensures { IfOk result (λ found. ReadsToken token.now found) }
{
    untoken_bytes(alloc, token.as_bytes())
}

/// As `untoken`, of bytes that need not be UTF-8.
pub fn untoken_bytes(alloc: Global, token: &[u8]) -> Result<Option<Text>, NoMemory>
    ensures { IfOk result (λ found. ReadsToken token.now found) }
{
    if let Some(text) = plain_text(token) {
        return Ok(Some(Text::copy_of(alloc, text)?));
    }
    read_escaped(alloc, token)
}

// The text of a token in which each byte stands for itself: the token's own bytes, neither copied nor written again.
#[tactic(auto, using(crate::proofs::TokenLemmas::plain_is_own))]
fn plain_text(token: &[u8]) -> Option<&str>
    ensures { IfSome result (λ text. ReadsToken token.now (Some text.now)) }
{
    if token.is_empty() || !are_plain(token) {
        return None;
    }
    match std::str::from_utf8(token) {
        Ok(text) => Some(text),
        Err(_) => None,
    }
}

fn are_plain(token: &[u8]) -> bool
    ensures { result ≡ list_all is_plain token.now }
{
    token.iter().all(|byte| is_plain(*byte))
}

fn read_escaped(alloc: Global, token: &[u8]) -> Result<Option<Text>, NoMemory>
    ensures { IfOk result (λ found. ReadsToken token.now found) }
{
    let Ok(text) = String::from_utf8(unescaped(alloc, token)?) else {
        return Ok(None);
    };
    let again = self::token(alloc, text.as_str())?;
    if is_same(token, again.as_bytes()) {
        Ok(Some(Text::from_string(text)))
    } else {
        Ok(None)
    }
}

/// What holds of tokens whatever is called: no two texts share one, what is read from a text's token is that text, a
/// token is never empty and has neither a space, a comma nor a line end, and no mark such as `%-` is one.
pub fn token_laws()
    ensures own { (a b : List ℕ) → IsUtf8 a → IsUtf8 b → token_of a ≡ token_of b → a ≡ b }
    ensures back { (text : List ℕ) (found : Option (List ℕ)) → IsUtf8 text → ReadsToken (token_of text) found
        → found ≡ Some text }
    ensures filled { (text : List ℕ) → token_of text ≢ [] }
    ensures bytes { (text : List ℕ) → IsUtf8 text → AllPass is_token_byte (token_of text) }
    ensures marks { (bytes : List ℕ) → IsMark bytes → ReadsToken bytes None }
{}

fn escaped(alloc: Global, text: &[u8]) -> Result<String, NoMemory>
    ensures { IfOk result (λ token. string_bytes token ≡ flat_map token_byte text.now) }
{
    let mut token = String::new(alloc);
    for byte in text {
        push_byte(&mut token, *byte)?;
    }
    Ok(token)
}

fn push_byte(token: &mut String, byte: u8) -> Result<(), NoMemory>
    ensures { OnOk result (string_bytes token.new ≡ string_bytes token.old ++ token_byte byte) }
{
    if is_plain(byte) {
        token.push(char::from(byte))?;
    } else {
        token.push('%')?;
        token.push(upper_digit(byte / 16))?;
        token.push(upper_digit(byte % 16))?;
    }
    Ok(())
}

fn is_plain(byte: u8) -> bool
    ensures { result ≡ is_plain byte }
{
    (b'!'..=b'~').contains(&byte) && byte != b'%' && byte != b','
}

fn upper_digit(value: u8) -> char
    requires { value < 16 }
    ensures digit { result ≡ slice_index upper_digits value }
    ensures ascii { result < 128 }
{
    char::from(UPPER_DIGITS[value as usize])
}

// Where in a token the reader stands: outside an escape, or behind its '%', or behind its first digit, of that value.
#[derive(Clone, Copy)]
enum Place {
    Plain,
    AfterPercent,
    AfterDigit(u8),
}

fn unescaped(alloc: Global, token: &[u8]) -> Result<Vec<u8>, NoMemory>
    ensures { IfOk result (λ text. text.items ≡ loose_text Plain token.now) }
{
    let mut text = Vec::new(alloc);
    let mut place = Place::Plain;
    for byte in token {
        place = read_byte(&mut text, place, *byte)?;
    }
    Ok(text)
}

fn read_byte(text: &mut Vec<u8>, place: Place, byte: u8) -> Result<Place, NoMemory>
    ensures place { IfOk result (λ next. next ≡ loose_place place byte) }
    ensures text { OnOk result (text.new.items ≡ text.old.items ++ loose_byte place byte) }
{
    match place {
        Place::Plain if byte == b'%' => Ok(Place::AfterPercent),
        Place::Plain => {
            text.push(byte)?;
            Ok(Place::Plain)
        }
        Place::AfterPercent => Ok(Place::AfterDigit(digit_value(byte))),
        Place::AfterDigit(high) => {
            text.push(high.wrapping_mul(16).wrapping_add(digit_value(byte)))?;
            Ok(Place::Plain)
        }
    }
}

fn digit_value(byte: u8) -> u8
    ensures { result ≡ loose_digit byte }
{
    match byte {
        b'A'..=b'F' => byte - b'A' + 10,
        b'a'..=b'f' => byte - b'a' + 10,
        b'0'..=b'9' => byte - b'0',
        _ => 0,
    }
}
