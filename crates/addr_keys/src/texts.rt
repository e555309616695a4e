// The texts inside a key's body, as bytes: ASCII, and UTF-16 with surrogate pairs.
// std reads UTF-16 whole, so a body becomes its units first; a lone surrogate is then std's only error.
ghost use Rattle.std.specs.Prelude.{◌≡◌, IfOk};
ghost use Rattle.addr_keys.specs.declared.error.KeyErr.TheVariants as faults;
ghost use Rattle.addr_keys.specs.Format.{is_ascii};
ghost use Rattle.addr_reading.specs.Gives.{Gives};
ghost use Rattle.addr_keys.specs.Faults.{ascii_of, units_of, utf16_of};

use crate::error::KeyErr;
use addr_base::{NoMemory, Text};
use std::alloc::Global;

#[tactic(auto, unfolding(crate::specs::Format::is_ascii))]
pub fn is_ascii(text: &[u8]) -> bool
    ensures { result ≡ is_ascii text.now }
{
    text.iter().all(|b| *b < 128)
}

#[tactic(auto, using(crate::proofs::TextLemmas::utf8_of_ascii), unfolding(crate::specs::Faults::ascii_of))]
pub fn ascii_text(alloc: Global, body: &[u8]) -> Result<Text, KeyErr>
    ensures { Gives faults.NoMemory (λ t. t) result (ascii_of body.now) }
{
    if !is_ascii(body) {
        return Err(KeyErr::NotAscii);
    }
    match std::str::from_utf8(body) {
        Ok(text) => Ok(Text::copy_of(alloc, text)?),
        Err(_) => Err(KeyErr::NotAscii),
    }
}

#[tactic(auto, unfolding(crate::specs::Faults::units_of))]
fn units_of(alloc: Global, body: &[u8]) -> Result<Vec<u16>, NoMemory>
    ensures { IfOk result (λ units. units.items ≡ units_of body.now) }
{
    let mut units = Vec::new(alloc);
    let mut rest = body;
    while let [low, high, after @ ..] = rest {
        units.push(u16::from_le_bytes([*low, *high]))?;
        rest = after;
    }
    Ok(units)
}

#[tactic(auto, unfolding(crate::specs::Faults::utf16_of))]
pub fn utf16_text(alloc: Global, body: &[u8]) -> Result<Text, KeyErr>
    ensures { Gives faults.NoMemory (λ t. t) result (utf16_of body.now) }
{
    if body.len() % 2 == 1 {
        return Err(KeyErr::Surrogate);
    }
    let units = units_of(alloc, body)?;
    match String::from_utf16(alloc, &units)? {
        Ok(text) => Ok(Text::from_string(text)),
        Err(_) => Err(KeyErr::Surrogate),
    }
}
