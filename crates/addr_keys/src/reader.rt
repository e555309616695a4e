// Reading a key: each function takes a field off the front and gives the bytes after it, so that no field carries a place.
// The place where a key ends is then the length of all bytes without those that are left.
ghost use Rattle.std.specs.Prelude.{◌≡◌, ◌≢◌, ◌↔◌, ℕ, Ok, Err, IfOk, false, slice_get, Some};
ghost use Rattle.std.specs.Int.{w16, w32};
ghost use Rattle.addr_keys.specs.declared.key.Key.{Key};
ghost use Rattle.addr_keys.specs.declared.error.KeyErr.TheVariants as faults;
ghost use Rattle.addr_keys.specs.Format.{KeyAt, HasNoText, has_text};
ghost use Rattle.addr_reading.specs.Gives.{Gives, Reads};
ghost use Rattle.addr_keys.specs.Faults.{byte_at, number_at, length_at, body_at, short_at, ascii_at, utf16_at, json_at, body_of_kind, key_first, key_read};

use crate::error::KeyErr;
use crate::key::Key;
use crate::texts::{ascii_text, utf16_text};
use addr_base::Text;
use std::alloc::Global;

#[tactic(auto, unfolding(crate::specs::Faults::byte_at))]
fn byte_of(bytes: &[u8]) -> Result<(u8, &[u8]), KeyErr>
    ensures { Reads (λ x. (x.0, x.1.now)) result (byte_at bytes.now) }
{
    match bytes {
        [] => Err(KeyErr::Short),
        [byte, rest @ ..] => Ok((*byte, rest)),
    }
}

#[tactic(auto, unfolding(crate::specs::Faults::number_at))]
fn u16_of(bytes: &[u8]) -> Result<(u16, &[u8]), KeyErr>
    ensures { Reads (λ x. (x.0, x.1.now)) result (number_at w16 bytes.now) }
{
    if bytes.len() < 2 {
        return Err(KeyErr::Short);
    }
    let (front, rest) = bytes.split_at(2);
    Ok((u16::from_le_bytes([front[0], front[1]]), rest))
}

#[tactic(auto, unfolding(crate::specs::Faults::number_at))]
fn u32_of(bytes: &[u8]) -> Result<(u32, &[u8]), KeyErr>
    ensures { Reads (λ x. (x.0, x.1.now)) result (number_at w32 bytes.now) }
{
    if bytes.len() < 4 {
        return Err(KeyErr::Short);
    }
    let (front, rest) = bytes.split_at(4);
    let number = u32::from_le_bytes([front[0], front[1], front[2], front[3]]);
    Ok((number, rest))
}

#[tactic(auto, unfolding(crate::specs::Faults::length_at))]
fn length_of(bytes: &[u8]) -> Result<(u32, &[u8]), KeyErr>
    ensures { Reads (λ x. (x.0, x.1.now)) result (length_at bytes.now) }
{
    let (len, rest) = u32_of(bytes)?;
    if len > i32::MAX as u32 {
        return Err(KeyErr::Negative);
    }
    Ok((len, rest))
}

#[tactic(auto, unfolding(crate::specs::Faults::body_at))]
fn body_of(len: usize, bytes: &[u8]) -> Result<(&[u8], &[u8]), KeyErr>
    ensures { Reads (λ x. (x.0.now, x.1.now)) result (body_at len bytes.now) }
{
    if bytes.len() < len {
        return Err(KeyErr::Short);
    }
    Ok(bytes.split_at(len))
}

#[tactic(auto, unfolding(crate::specs::Faults::short_at))]
fn short_of(alloc: Global, bytes: &[u8]) -> Result<(Text, &[u8]), KeyErr>
    ensures { Gives faults.NoMemory (λ x. (x.0, x.1.now)) result (short_at bytes.now) }
{
    let (len, rest) = byte_of(bytes)?;
    let (body, rest) = body_of(len as usize, rest)?;
    let text = ascii_text(alloc, body)?;
    Ok((text, rest))
}

#[tactic(auto, unfolding(crate::specs::Faults::ascii_at))]
fn ascii_of(alloc: Global, bytes: &[u8]) -> Result<(Text, &[u8]), KeyErr>
    ensures { Gives faults.NoMemory (λ x. (x.0, x.1.now)) result (ascii_at bytes.now) }
{
    let (len, rest) = length_of(bytes)?;
    let (body, rest) = body_of(len as usize, rest)?;
    let text = ascii_text(alloc, body)?;
    Ok((text, rest))
}

#[tactic(auto, unfolding(crate::specs::Faults::utf16_at))]
fn utf16_of(alloc: Global, bytes: &[u8]) -> Result<(Text, &[u8]), KeyErr>
    ensures { Gives faults.NoMemory (λ x. (x.0, x.1.now)) result (utf16_at bytes.now) }
{
    let (byte_count, rest) = length_of(bytes)?;
    let (body, rest) = body_of(byte_count as usize, rest)?;
    let text = utf16_text(alloc, body)?;
    Ok((text, rest))
}

#[tactic(auto, unfolding(crate::specs::Faults::json_at))]
fn json_of(alloc: Global, bytes: &[u8]) -> Result<(Key, &[u8]), KeyErr>
    ensures { Gives faults.NoMemory (λ x. (x.0, x.1.now)) result (json_at bytes.now) }
{
    let (assembly, rest) = short_of(alloc, bytes)?;
    let (class, rest) = short_of(alloc, rest)?;
    let (text, rest) = utf16_of(alloc, rest)?;
    let key = Key::Json {
        assembly,
        class,
        text,
    };
    Ok((key, rest))
}

#[tactic(auto, unfolding(crate::specs::Faults::body_of_kind))]
fn key_of_kind(alloc: Global, kind: u8, bytes: &[u8]) -> Result<(Key, &[u8]), KeyErr>
    ensures exact { Gives faults.NoMemory (λ x. (x.0, x.1.now)) result (body_of_kind kind bytes.now) }
    ensures plain { has_text kind ≡ false → Reads (λ x. (x.0, x.1.now)) result (body_of_kind kind bytes.now) }
{
    match kind {
        0 => ascii_of(alloc, bytes).map(|(text, rest)| (Key::Text(text), rest)),
        1 => utf16_of(alloc, bytes).map(|(text, rest)| (Key::Text(text), rest)),
        2 => u16_of(bytes).map(|(n, rest)| (Key::U16(n), rest)),
        3 => u32_of(bytes).map(|(n, rest)| (Key::U32(n), rest)),
        4 => u32_of(bytes).map(|(n, rest)| (Key::I32(n.cast_signed()), rest)),
        5 => short_of(alloc, bytes).map(|(text, rest)| (Key::Hash(text), rest)),
        6 => short_of(alloc, bytes).map(|(text, rest)| (Key::TypeId(text), rest)),
        7 => json_of(alloc, bytes),
        _ => Err(KeyErr::Kind(kind)),
    }
}

#[tactic(auto, unfolding(crate::specs::Faults::key_first))]
fn first_key(alloc: Global, bytes: &[u8]) -> Result<(Key, &[u8]), KeyErr>
    ensures exact { Gives faults.NoMemory (λ x. (x.0, x.1.now)) result (key_first bytes.now) }
    ensures plain { HasNoText bytes.now 0 → Reads (λ x. (x.0, x.1.now)) result (key_first bytes.now) }
{
    let (kind, rest) = byte_of(bytes)?;
    key_of_kind(alloc, kind, rest)
}

#[tactic(auto, unfolding(crate::specs::Faults::key_read))]
fn key_from(alloc: Global, bytes: &[u8], at: usize) -> Result<(Key, usize), KeyErr>
    ensures exact { Gives faults.NoMemory (λ x. x) result (key_read bytes.now at) }
    ensures plain { HasNoText bytes.now at → Reads (λ x. x) result (key_read bytes.now at) }
{
    let tail = bytes.get(at..).unwrap_or(&[]);
    let (key, rest) = first_key(alloc, tail)?;
    Ok((key, bytes.len().saturating_sub(rest.len())))
}

/// The key whose form begins at a place, and the place after it. What follows the form is not looked at.
pub fn read_key(alloc: Global, bytes: &[u8], at: usize) -> Result<(Key, usize), KeyErr>
    // What is read stands there.
    ensures found { IfOk result (λ x. KeyAt bytes.now at x.0 x.1) }
    // What stands there is read, unless memory is refused.
    ensures only { (key : Key) (end : ℕ) → KeyAt bytes.now at key end → Gives faults.NoMemory
        (λ x. x) result (Ok (key, end)) }
    // Which fault it is, where it is one.
    ensures exact { Gives faults.NoMemory (λ x. x) result (key_read bytes.now at) }
    // Memory is asked for by keys that hold a text alone: what else stands there is told exactly.
    ensures plain { HasNoText bytes.now at → Reads (λ x. x) result (key_read bytes.now at) }
    // So at each place stands one key or a first fault, and never both; and no fault is want of memory.
    ensures named { key_read bytes.now at ≢ Err faults.NoMemory }
    ensures law { (key : Key) (end : ℕ) → (KeyAt bytes.now at key end ↔ (key_read bytes.now at ≡ Ok (key, end))) }
{
    key_from(alloc, bytes, at)
}
