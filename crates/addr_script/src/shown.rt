// How bytes are shown in a reply.
ghost use Rattle.std.specs.Prelude.{◌≡◌, ◌++◌, ◌∷◌, IfOk, OnOk, codes, string_bytes};
ghost use Rattle.addr_base.specs.Ids.{digest_of, hex_of};
ghost use Rattle.addr_script.specs.Replies.{content_text, item_text, items_text};

use addr_base::{NoMemory, Text, digest};
use addr_history::Item2;
use std::alloc::Global;
use std::fmt::Write;

/// The most bytes that are shown themselves.
const SHOWN: usize = 64;

/// Bytes as a reply shows them: in hex where there are 1 to 64, `-` where there are none, else `#` and their digest.
pub fn content(alloc: Global, bytes: &[u8]) -> Result<Text, NoMemory>
    ensures { IfOk result (λ text. text ≡ content_text bytes.now) }
{
    if bytes.is_empty() {
        let none = Text::copy_of(alloc, "-")?;
        return Ok(none);
    }
    if bytes.len() <= SHOWN {
        let digits = in_hex(alloc, bytes)?;
        return Ok(digits);
    }
    let name = named(alloc, bytes)?;
    Ok(name)
}

fn in_hex(alloc: Global, bytes: &[u8]) -> Result<Text, NoMemory>
    ensures { IfOk result (λ text. text ≡ hex_of bytes.now) }
{
    let digits = hex::encode(alloc, bytes)?;
    Ok(Text::from_string(digits))
}

fn named(alloc: Global, bytes: &[u8]) -> Result<Text, NoMemory>
    ensures { IfOk result (λ text. text ≡ 35 ∷ hex_of (digest_of bytes.now)) }
{
    let mut text = String::new(alloc);
    let name = digest(bytes);
    write!(text, "#{name}")?;
    Ok(Text::from_string(text))
}

/// The assets of an unfolding as a reply shows them.
pub fn items_text(alloc: Global, items: &[Item2]) -> Result<Text, NoMemory>
    ensures { IfOk result (λ text. text ≡ items_text items.now) }
{
    let mut text = String::new(alloc);
    for item in items {
        add_item(alloc, &mut text, item)?;
    }
    Ok(Text::from_string(text))
}

fn add_item(alloc: Global, text: &mut String, item: &Item2) -> Result<(), NoMemory>
    ensures { OnOk result (string_bytes text.new ≡ string_bytes text.old ++ item_text item.now) }
{
    let content = content(alloc, item.bytes.as_slice())?;
    let guid = item.guid;
    let length = item.bytes.len() as u64;
    let shown = content.as_str();
    write!(text, " {guid}:{length}:{shown}")?;
    Ok(())
}
