// The texts of an entry's keys, which are known by their numbers.
ghost use Rattle.std.specs.Prelude.{◌≡◌, ◌++◌, IfOk, OnOk, slice_get};
ghost use Rattle.std.specs.List.{filter_map};
ghost use Rattle.std.specs.Option.{option_copied, option_to_list};
ghost use Rattle.addr_catalog.specs.Entries.{text_of, key_text_at, asset_keys, bundle_key};

use crate::inverted::is_among;
use addr_base::{Items, NoMemory, Text};
use addr_keys::Key;
use std::alloc::Global;

fn text_of(key: &Key) -> Option<&str>
    ensures { option_copied result ≡ text_of key.now }
{
    match key {
        Key::Text(text) => Some(text.as_str()),
        _ => None,
    }
}

/// The text of the key with that number, if it is a Text.
fn key_text_at(keys: &[Key], number: u32) -> Option<&str>
    ensures { option_copied result ≡ key_text_at keys.now number }
{
    match keys.get(number as usize) {
        Some(key) => text_of(key),
        None => None,
    }
}

/// Appends the text of the key, if it is a Text.
fn push_text(
    alloc: Global,
    texts: &mut Items<Text>,
    keys: &[Key],
    number: u32,
) -> Result<(), NoMemory>
    ensures { OnOk result (texts.new ≡ texts.old ++ option_to_list (key_text_at keys.now number)) }
{
    match key_text_at(keys, number) {
        Some(text) => texts.push(Text::copy_of(alloc, text)?),
        None => Ok(()),
    }
}

/// The texts of an asset's keys, which have these numbers: the primary one first, if it is among them.
#[tactic(auto, unfolding(crate::specs::Entries::asset_keys, crate::specs::Entries::with_first))]
pub fn asset_keys(
    alloc: Global,
    keys: &[Key],
    primary: u32,
    numbers: &[u32],
) -> Result<Items<Text>, NoMemory>
    ensures { IfOk result (λ texts. texts ≡ asset_keys keys.now primary numbers.now) }
{
    let mut texts = Items::new(alloc);
    if is_among(numbers, primary) {
        push_text(alloc, &mut texts, keys, primary)?;
    }
    for number in numbers {
        if *number != primary {
            push_text(alloc, &mut texts, keys, *number)?;
        }
    }
    Ok(texts)
}

/// The text of the first of the keys that is one.
fn first_text<'a>(keys: &'a [Key], numbers: &[u32]) -> Option<&'a str>
    ensures { option_copied result ≡ slice_get (filter_map (key_text_at keys.now) numbers.now) 0 }
{
    for number in numbers {
        if let Some(text) = key_text_at(keys, *number) {
            return Some(text);
        }
    }
    None
}

/// The key of a bundle, whose keys have these numbers: its primary key where that is a Text, or else the first Text, or else
/// the empty text.
#[tactic(auto, unfolding(crate::specs::Entries::bundle_key))]
pub fn bundle_key<'a>(keys: &'a [Key], primary: u32, numbers: &[u32]) -> &'a str
    ensures { result.now ≡ bundle_key keys.now primary numbers.now }
{
    if let Some(text) = key_text_at(keys, primary) {
        return text;
    }
    first_text(keys, numbers).unwrap_or("")
}
