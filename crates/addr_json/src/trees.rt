// Values of a document that is to be written: texts, lists of texts, digests and GUIDs.
ghost use Rattle.std.specs.Prelude.{◌≡◌, IfOk, OnOk};
ghost use Rattle.serde_json.specs.View.{view, members_view};
ghost use Rattle.addr_base.specs.Ids.{Are16Bytes};
ghost use Rattle.addr_json.specs.Trees.{digest_tree, guid_tree, texts_tree, with_text};

use addr_base::{Digest, Guid, NoMemory, Text};
use serde_json::{Map, Value, put};
use std::alloc::Global;

/// What the types of a digest and of a GUID say; nothing runs.
fn have_sixteen_bytes(bytes: [u8; 16])
    ensures { Are16Bytes bytes }
{}

pub fn digest_tree(alloc: Global, digest: Digest) -> Result<Value, NoMemory>
    ensures tree { IfOk result (λ value. view value ≡ digest_tree digest) }
    // What the type says, for whoever reads the digits back.
    ensures sixteen { Are16Bytes digest.0 }
{
    have_sixteen_bytes(digest.0);
    let digits = format!(in alloc; "{digest}")?;
    Ok(Value::String(digits))
}

pub fn guid_tree(alloc: Global, guid: Guid) -> Result<Value, NoMemory>
    ensures tree { IfOk result (λ value. view value ≡ guid_tree guid) }
    ensures sixteen { Are16Bytes guid.0 }
{
    have_sixteen_bytes(guid.0);
    let digits = format!(in alloc; "{guid}")?;
    Ok(Value::String(digits))
}

pub fn texts_tree(alloc: Global, texts: &[Text]) -> Result<Value, NoMemory>
    ensures { IfOk result (λ value. view value ≡ texts_tree texts.now) }
{
    let mut values = Vec::new(alloc);
    for text in texts {
        values.push(Value::try_from_str(alloc, text.as_str())?)?;
    }
    Ok(Value::Array(values))
}

/// Puts a copy of a text as a member. After an error the members are as before.
pub fn put_text(
    alloc: Global,
    into: &mut Map<String, Value>,
    key: &str,
    text: &str,
) -> Result<(), NoMemory>
    ensures { OnOk result (members_view into.new.entries ≡ with_text key.now text.now (members_view into.old.entries)) }
{
    put(into, alloc, key, Value::try_from_str(alloc, text)?)?;
    Ok(())
}
