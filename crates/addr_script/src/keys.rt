// The field of the keys of a load: tokens with a comma between each two.
ghost use Rattle.std.specs.Prelude.{◌≡◌, ℕ, List, MatchOption, IfOk};
ghost use Rattle.addr_script.specs.Commands.{AreKeys, AreTexts, asked_keys_field};

use addr_base::{Items, NoMemory, Text, untoken_bytes};
use addr_fields::cut_at;
use std::alloc::Global;

/// The keys that the field spells, or None where it spells no list of keys.
pub fn key_list(alloc: Global, field: &[u8]) -> Result<Option<Items<Text>>, NoMemory>
    ensures { IfOk result (λ found. MatchOption found
        ((keys : List (List ℕ)) → AreKeys keys → field.now ≡ asked_keys_field keys → ⊥)
        (λ keys. AreKeys keys × (field.now ≡ asked_keys_field keys))) }
{
    match token_list(alloc, field)? {
        Some(keys) => {
            if keys.len() <= u32::MAX as usize {
                Ok(Some(keys))
            } else {
                Ok(None)
            }
        }
        None => Ok(None),
    }
}

fn token_list(alloc: Global, field: &[u8]) -> Result<Option<Items<Text>>, NoMemory>
    ensures { IfOk result (λ found. MatchOption found
        ((texts : List (List ℕ)) → AreTexts texts → field.now ≡ asked_keys_field texts → ⊥)
        (λ texts. AreTexts texts × (field.now ≡ asked_keys_field texts))) }
{
    let mut keys = Items::new(alloc);
    let mut rest = field;
    while let Some((token, after)) = cut_at(rest, b',') {
        match untoken_bytes(alloc, token)? {
            Some(key) => keys.push(key)?,
            None => return Ok(None),
        }
        rest = after;
    }
    match untoken_bytes(alloc, rest)? {
        Some(key) => {
            keys.push(key)?;
            Ok(Some(keys))
        }
        None => Ok(None),
    }
}
