// The document of a catalogue, and its members in the order of their numbers.
ghost use Rattle.std.specs.Prelude.{◌≡◌, ◌≢◌, [], codes, IfOk, Err, None};
ghost use Rattle.std.specs.Option.{option_copied};
ghost use Rattle.serde_json.specs.View.{view, items_view, members_view};
ghost use Rattle.addr_catalog_json.specs.declared.error.DocErr.TheVariants as faults;
ghost use Rattle.addr_reading.specs.Gives.{Gives};
ghost use Rattle.addr_reading.specs.Steps.{or_fault};
ghost use Rattle.addr_json.specs.Members.{all_items, list_of, required, optional, tree_of};
ghost use Rattle.addr_catalog_json.specs.Document.{kind_of, state_of, texts_of, strings_read, members_read, document_read};

use crate::error::DocErr;
use crate::members::{text_member, texts_member};
use addr_base::{Digest, Items, NoMemory, Text};
use addr_json::{as_digest, as_texts, member, read_tree};
use serde_json::{Map, Value};
use std::alloc::Global;

/// The lists that the numbers of entries name, and the prefixes of internal ids.
#[derive(Drop)]
pub struct Lists {
    pub providers: Items<Text>,
    pub internals: Items<Text>,
    pub kinds: Items<Text>,
    pub prefixes: Items<Text>,
}

/// The texts of the four tables.
#[derive(Drop)]
pub struct Strings {
    pub key: Text,
    pub bucket: Text,
    pub entry: Text,
    pub extra: Text,
}

#[derive(Drop)]
pub struct Document {
    pub lists: Lists,
    pub strings: Strings,
    pub state: Option<Digest>,
}

fn tree_of(alloc: Global, bytes: &[u8]) -> Result<Value, DocErr>
    ensures { Gives faults.NoMemory view result (or_fault faults.Json (tree_of bytes.now)) }
{
    match read_tree(alloc, bytes)? {
        Some(tree) => Ok(tree),
        None => Err(DocErr::Json),
    }
}

#[tactic(auto, unfolding(crate::specs::Document::strings_read))]
fn read_strings(alloc: Global, object: &Map<String, Value>) -> Result<Strings, DocErr>
    ensures { Gives faults.NoMemory (λ s. s) result (strings_read (members_view object.now.entries)) }
{
    let key = text_member(alloc, object, "m_KeyDataString", 3)?;
    let bucket = text_member(alloc, object, "m_BucketDataString", 4)?;
    let entry = text_member(alloc, object, "m_EntryDataString", 5)?;
    let extra = text_member(alloc, object, "m_ExtraDataString", 6)?;
    Ok(Strings {
        key,
        bucket,
        entry,
        extra,
    })
}

/// The class of a resource type.
fn as_kind(value: &Value) -> Option<&str>
    ensures { option_copied result ≡ kind_of (view value.now) }
{
    match value.get("m_ClassName") {
        Some(class) => class.as_str(),
        None => None,
    }
}

/// The class of each value, where all are resource types.
fn kinds_in(alloc: Global, values: &[Value]) -> Result<Option<Items<Text>>, NoMemory>
    ensures { IfOk result (λ kinds. kinds ≡ all_items kind_of (items_view values.now)) }
{
    let mut kinds = Items::new(alloc);
    for value in values {
        let Some(kind) = as_kind(value) else {
            return Ok(None);
        };
        kinds.push(Text::copy_of(alloc, kind)?)?;
    }
    Ok(Some(kinds))
}

fn as_kinds(alloc: Global, value: &Value) -> Result<Option<Items<Text>>, NoMemory>
    ensures { IfOk result (λ kinds. kinds ≡ list_of kind_of (view value.now)) }
{
    match value.as_array() {
        Some(values) => kinds_in(alloc, values.as_slice()),
        None => Ok(None),
    }
}

fn kinds_member(alloc: Global, object: &Map<String, Value>) -> Result<Items<Text>, DocErr>
    ensures { Gives faults.NoMemory (λ t. t) result
        (or_fault (faults.Member 7)
        (required (list_of kind_of) (codes "m_resourceTypes") (members_view object.now.entries))) }
{
    let Some(value) = member(object, "m_resourceTypes") else {
        return Err(DocErr::Member { which: 7 });
    };
    match as_kinds(alloc, value)? {
        Some(kinds) => Ok(kinds),
        None => Err(DocErr::Member { which: 7 }),
    }
}

fn prefixes_member(alloc: Global, object: &Map<String, Value>) -> Result<Items<Text>, DocErr>
    ensures { Gives faults.NoMemory (λ t. t) result
        (or_fault (faults.Member 8)
        (optional texts_of [] (codes "m_InternalIdPrefixes") (members_view object.now.entries))) }
{
    let Some(value) = member(object, "m_InternalIdPrefixes") else {
        return Ok(Items::new(alloc));
    };
    match as_texts(alloc, value)? {
        Some(prefixes) => Ok(prefixes),
        None => Err(DocErr::Member { which: 8 }),
    }
}

fn state_member(object: &Map<String, Value>) -> Result<Option<Digest>, DocErr>
    ensures { Gives faults.NoMemory (λ s. s) result
        (or_fault (faults.Member 9)
        (optional state_of None (codes "m_ContentState") (members_view object.now.entries))) }
{
    let Some(value) = member(object, "m_ContentState") else {
        return Ok(None);
    };
    match as_digest(value) {
        Some(state) => Ok(Some(state)),
        None => Err(DocErr::Member { which: 9 }),
    }
}

/// The members of the document that a value is.
#[tactic(auto, unfolding(crate::specs::Document::members_read))]
fn read_members(alloc: Global, tree: &Value) -> Result<Document, DocErr>
    ensures { Gives faults.NoMemory (λ d. d) result (members_read (view tree.now)) }
{
    let Some(object) = tree.as_object() else {
        return Err(DocErr::Member { which: 0 });
    };
    let providers = texts_member(alloc, object, "m_ProviderIds", 1)?;
    let internals = texts_member(alloc, object, "m_InternalIds", 2)?;
    let strings = read_strings(alloc, object)?;
    let kinds = kinds_member(alloc, object)?;
    let prefixes = prefixes_member(alloc, object)?;
    let state = state_member(object)?;
    let lists = Lists {
        providers,
        internals,
        kinds,
        prefixes,
    };
    Ok(Document {
        lists,
        strings,
        state,
    })
}

/// Reads the document of a catalogue (docs/formats/catalogue.md).
#[tactic(auto, unfolding(crate::specs::Document::document_read))]
pub fn read_document(alloc: Global, bytes: &[u8]) -> Result<Document, DocErr>
    // Unless memory was refused, the answer is what the bytes are read as: their document or its first fault.
    ensures exact { Gives faults.NoMemory (λ document. document) result (document_read bytes.now) }
    // No fault is want of memory.
    ensures named { document_read bytes.now ≢ Err faults.NoMemory }
{
    let tree = tree_of(alloc, bytes)?;
    read_members(alloc, &tree)
}
