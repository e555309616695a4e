// Writing a key: each function appends one field. Where memory is refused in the middle of a key, what was begun is still
// behind the bytes that stood there before, so `write_key` cuts it off again.
ghost use Rattle.std.specs.Prelude.{◌≡◌, ◌<◌, ◌*◌, ◌^◌, ◌++◌, ◌∷◌, [], length, take, Ok, OnOk, OnErr, IsUtf8};
ghost use Rattle.std.specs.Int.{w16, w32, to_le_bytes};
ghost use Rattle.addr_keys.specs.declared.key.Key.TheVariants as keys;
ghost use Rattle.addr_keys.specs.Faults.{key_read};
ghost use Rattle.addr_keys.specs.Format.{utf16_units, utf16_bytes, short, long, key_text, IsForm, IsShort, IsLong, IsWritable};

use crate::key::Key;
use crate::texts::is_ascii;
use addr_base::NoMemory;

fn put(into: &mut Vec<u8>, bytes: &[u8]) -> Result<(), NoMemory>
    ensures written { OnOk result (into.new.items ≡ into.old.items ++ bytes.now) }
    ensures kept { take (length into.old.items) into.new.items ≡ into.old.items }
{
    into.extend_from_slice(bytes)?;
    Ok(())
}

fn put_byte(into: &mut Vec<u8>, byte: u8) -> Result<(), NoMemory>
    ensures written { OnOk result (into.new.items ≡ into.old.items ++ byte ∷ []) }
    ensures kept { take (length into.old.items) into.new.items ≡ into.old.items }
{
    into.push(byte)?;
    Ok(())
}

fn put_u16(into: &mut Vec<u8>, n: u16) -> Result<(), NoMemory>
    ensures written { OnOk result (into.new.items ≡ into.old.items ++ to_le_bytes w16 n) }
    ensures kept { take (length into.old.items) into.new.items ≡ into.old.items }
{
    put(into, &n.to_le_bytes())
}

fn put_u32(into: &mut Vec<u8>, n: u32) -> Result<(), NoMemory>
    ensures written { OnOk result (into.new.items ≡ into.old.items ++ to_le_bytes w32 n) }
    ensures kept { take (length into.old.items) into.new.items ≡ into.old.items }
{
    put(into, &n.to_le_bytes())
}

#[tactic(auto, using(crate::proofs::Growth::kept_then, crate::proofs::Growth::appended_then))]
fn put_short(into: &mut Vec<u8>, text: &[u8]) -> Result<(), NoMemory>
    requires { length text.now < 256 }
    ensures written { OnOk result (into.new.items ≡ into.old.items ++ short text.now) }
    ensures kept { take (length into.old.items) into.new.items ≡ into.old.items }
{
    put_byte(into, text.len() as u8)?;
    put(into, text)
}

#[tactic(auto, using(crate::proofs::Growth::kept_then, crate::proofs::Growth::appended_then))]
fn put_long(into: &mut Vec<u8>, body: &[u8]) -> Result<(), NoMemory>
    requires { IsLong body.now }
    ensures written { OnOk result (into.new.items ≡ into.old.items ++ long body.now) }
    ensures kept { take (length into.old.items) into.new.items ≡ into.old.items }
{
    put_u32(into, body.len() as u32)?;
    put(into, body)
}

/// The number of 16-bit units of a text.
fn unit_count(text: &str) -> usize
    requires { length (utf16_units text.now) < 2 ^ 31 }
    ensures { result ≡ length (utf16_units text.now) }
{
    let mut count = 0;
    for _ in text.encode_utf16() {
        count += 1;
    }
    count
}

fn put_units(into: &mut Vec<u8>, text: &str) -> Result<(), NoMemory>
    ensures written { OnOk result (into.new.items ≡ into.old.items ++ utf16_bytes text.now) }
    ensures kept { take (length into.old.items) into.new.items ≡ into.old.items }
{
    for unit in text.encode_utf16() {
        put_u16(into, unit)?;
    }
    Ok(())
}

#[tactic(auto, using(crate::proofs::BodyLemmas::double_units))]
fn utf16_len(text: &str) -> u32
    requires { IsLong (utf16_bytes text.now) }
    ensures { result ≡ length (utf16_bytes text.now) }
{
    2 * unit_count(text) as u32
}

#[tactic(auto, using(crate::proofs::Growth::kept_then, crate::proofs::Growth::appended_then))]
fn put_utf16(into: &mut Vec<u8>, text: &str) -> Result<(), NoMemory>
    requires { IsLong (utf16_bytes text.now) }
    ensures written { OnOk result (into.new.items ≡ into.old.items ++ long (utf16_bytes text.now)) }
    ensures kept { take (length into.old.items) into.new.items ≡ into.old.items }
{
    put_u32(into, utf16_len(text))?;
    put_units(into, text)
}

#[tactic(auto, using(crate::proofs::Growth::kept_then, crate::proofs::Growth::appended_then), unfolding(crate::specs::Format::key_text))]
fn put_text(into: &mut Vec<u8>, text: &str) -> Result<(), NoMemory>
    requires { IsWritable (keys.Text text.now) }
    ensures written { OnOk result (into.new.items ≡ into.old.items ++ key_text (keys.Text text.now)) }
    ensures kept { take (length into.old.items) into.new.items ≡ into.old.items }
{
    if is_ascii(text.as_bytes()) {
        put_byte(into, 0)?;
        put_long(into, text.as_bytes())
    } else {
        put_byte(into, 1)?;
        put_utf16(into, text)
    }
}

#[tactic(auto, using(crate::proofs::Growth::kept_then, crate::proofs::Growth::appended_then), unfolding(crate::specs::Format::key_text))]
fn put_json(into: &mut Vec<u8>, assembly: &[u8], class: &[u8], text: &str) -> Result<(), NoMemory>
    requires { IsWritable (keys.Json assembly.now class.now text.now) }
    ensures written { OnOk result
        (into.new.items ≡ into.old.items ++ key_text (keys.Json assembly.now class.now text.now)) }
    ensures kept { take (length into.old.items) into.new.items ≡ into.old.items }
{
    put_byte(into, 7)?;
    put_short(into, assembly)?;
    put_short(into, class)?;
    put_utf16(into, text)
}

#[tactic(auto, using(crate::proofs::Growth::kept_then, crate::proofs::Growth::appended_then, crate::proofs::FormLemmas::is_text_form, crate::proofs::FormLemmas::is_json_form), unfolding(crate::specs::Format::key_text))]
fn put_key(into: &mut Vec<u8>, key: &Key) -> Result<(), NoMemory>
    requires { IsWritable key.now }
    ensures written { OnOk result (into.new.items ≡ into.old.items ++ key_text key.now) }
    ensures kept { take (length into.old.items) into.new.items ≡ into.old.items }
    ensures form { OnOk result (IsForm key.now (key_text key.now)) }
{
    match key {
        Key::Text(text) => put_text(into, text.as_str()),
        Key::U16(n) => {
            put_byte(into, 2)?;
            put_u16(into, *n)
        }
        Key::U32(n) => {
            put_byte(into, 3)?;
            put_u32(into, *n)
        }
        Key::I32(n) => {
            put_byte(into, 4)?;
            put_u32(into, n.cast_unsigned())
        }
        Key::Hash(text) => {
            put_byte(into, 5)?;
            put_short(into, text.as_bytes())
        }
        Key::TypeId(text) => {
            put_byte(into, 6)?;
            put_short(into, text.as_bytes())
        }
        Key::Json {
            assembly,
            class,
            text,
        } => put_json(into, assembly.as_bytes(), class.as_bytes(), text.as_str()),
    }
}

/// Appends the written form of a key. It grows the vector and takes no other memory.
pub fn write_key(key: &Key, into: &mut Vec<u8>) -> Result<(), NoMemory>
    requires { IsWritable key.now }
    ensures written { OnOk result (into.new.items ≡ into.old.items ++ key_text key.now) }
    // Where memory is refused the bytes are as before.
    ensures same { OnErr result (into.new.items ≡ into.old.items) }
    // What is written is a form of the key, and `read_key` gives the key back, up to the end of the bytes.
    ensures form { OnOk result (IsForm key.now (key_text key.now)) }
    ensures again { OnOk result
        (key_read into.new.items (length into.old.items) ≡ Ok (key.now, length into.new.items)) }
{
    let before = into.len();
    match put_key(into, key) {
        Ok(()) => Ok(()),
        Err(refused) => {
            into.truncate(before);
            Err(refused)
        }
    }
}
