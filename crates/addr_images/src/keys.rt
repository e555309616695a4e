// The keys of an entry: its address, the digits of its asset's GUID and its labels, each once. They are at most 34, so that
// looking through those before costs little.
ghost use Rattle.std.specs.Prelude.{◌≡◌, [], ◌∷◌, IfOk, OnOk};
ghost use Rattle.std.specs.List.{list_any};
ghost use Rattle.std.specs.Str.{bytes_eq};
ghost use Rattle.addr_base.specs.Ids.{hex_of};
ghost use Rattle.addr_locate.specs.Names.{with_text, with_texts};

use addr_base::{Guid, Items, NoMemory, Text, is_same};
use addr_project::Entry;
use std::alloc::Global;

fn is_among(keys: &[Text], text: &str) -> bool
    ensures { result ≡ list_any (λ key. bytes_eq key text.now) keys.now }
{
    keys.iter()
        .any(|key| is_same(key.as_bytes(), text.as_bytes()))
}

/// One more key, unless it is there.
fn add_key(alloc: Global, keys: &mut Items<Text>, text: &str) -> Result<(), NoMemory>
    ensures { OnOk result (keys.new ≡ with_text keys.old text.now) }
{
    if !is_among(keys.as_slice(), text) {
        keys.push(Text::copy_of(alloc, text)?)?;
    }
    Ok(())
}

fn add_keys(alloc: Global, keys: &mut Items<Text>, texts: &[Text]) -> Result<(), NoMemory>
    ensures { OnOk result (keys.new ≡ with_texts keys.old texts.now) }
{
    for text in texts {
        add_key(alloc, keys, text.as_str())?;
    }
    Ok(())
}

/// The digits of a GUID.
pub fn guid_digits(alloc: Global, guid: Guid) -> Result<Text, NoMemory>
    ensures { IfOk result (λ digits. digits ≡ hex_of guid.0) }
{
    let digits = format!(in alloc; "{guid}")?;
    Ok(Text::from_string(digits))
}

/// The keys of an entry whose asset's GUID has these digits.
pub fn keys_told(alloc: Global, entry: &Entry, digits: &str) -> Result<Items<Text>, NoMemory>
    ensures { IfOk result (λ keys. keys
        ≡ with_texts [] (entry.now.address ∷ digits.now ∷ entry.now.labels)) }
{
    let mut keys = Items::new(alloc);
    add_key(alloc, &mut keys, entry.address.as_str())?;
    add_key(alloc, &mut keys, digits)?;
    add_keys(alloc, &mut keys, entry.labels.as_slice())?;
    Ok(keys)
}
