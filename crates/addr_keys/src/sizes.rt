// How many bytes the written form of a key takes, told without writing it. Sums saturate, so that no text is too long to be
// measured.
ghost use Rattle.std.specs.Prelude.{◌≡◌, ◌-◌, ◌^◌, length, min};
ghost use Rattle.addr_keys.specs.declared.key.Key.TheVariants as keys;
ghost use Rattle.addr_keys.specs.Format.{utf16_units, utf16_bytes, key_text};

use crate::key::Key;
use crate::texts::is_ascii;

/// A kind, and a length of four bytes.
const LONG_FRONT: u64 = 5;

/// A kind, and a length of one byte.
const SHORT_FRONT: u64 = 2;

fn unit_count(text: &str) -> u64
    ensures { result ≡ min (length (utf16_units text.now)) (2 ^ 64 - 1) }
{
    let mut count: u64 = 0;
    for _ in text.encode_utf16() {
        count = count.saturating_add(1);
    }
    count
}

fn utf16_size(text: &str) -> u64
    ensures { result ≡ min (length (utf16_bytes text.now)) (2 ^ 64 - 1) }
{
    unit_count(text).saturating_mul(2)
}

fn text_size(text: &str) -> u64
    ensures { result ≡ min (length (key_text (keys.Text text.now))) (2 ^ 64 - 1) }
{
    if is_ascii(text.as_bytes()) {
        return (text.len() as u64).saturating_add(LONG_FRONT);
    }
    utf16_size(text).saturating_add(LONG_FRONT)
}

/// A kind, two short texts, and a text in UTF-16 behind its length of four bytes.
fn json_size(assembly: &str, class: &str, text: &str) -> u64
    ensures { result ≡ min (length (key_text (keys.Json assembly.now class.now text.now))) (2 ^ 64 - 1) }
{
    let names = (assembly.len() as u64).saturating_add(class.len() as u64);
    names.saturating_add(utf16_size(text)).saturating_add(7)
}

/// How many bytes `write_key` writes, at most 2^64 - 1. Linear in the key's texts; takes no memory.
#[tactic(auto, unfolding(crate::specs::Format::key_text))]
pub fn key_size(key: &Key) -> u64
    ensures { result ≡ min (length (key_text key.now)) (2 ^ 64 - 1) }
{
    match key {
        Key::Text(text) => text_size(text.as_str()),
        Key::U16(_) => 3,
        Key::U32(_) | Key::I32(_) => 5,
        Key::Hash(text) | Key::TypeId(text) => (text.len() as u64).saturating_add(SHORT_FRONT),
        Key::Json {
            assembly,
            class,
            text,
        } => json_size(assembly.as_str(), class.as_str(), text.as_str()),
    }
}
