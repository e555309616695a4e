// A document and the options of a bundle as texts. The members of an object are put in groups; the map keeps them in the
// order of their names.
ghost use Rattle.std.specs.Prelude.{◌≡◌, Ok, Some, IfOk, OnOk};
ghost use Rattle.serde_json.specs.View.{view, members_view};
ghost use Rattle.addr_base.specs.Ids.{Are16Bytes};
ghost use Rattle.addr_catalog_json.specs.Document.{document_read};
ghost use Rattle.addr_catalog_json.specs.Options.{options_read};
ghost use Rattle.addr_catalog_json.specs.Written.{kind_tree, kinds_tree, document_tree, document_text, options_tree, options_text};
ghost use Rattle.addr_catalog_json.specs.within.Put.{with_fixed, with_strings, with_lists, with_digest, IsWellStated};

use crate::document::{Document, Lists, Strings};
use crate::options::BundleOptions;
use addr_base::{Digest, NoMemory, Text};
use addr_json::{digest_tree, put_text, texts_tree};
use serde_json::{Map, Value, json, put};
use std::alloc::Global;

fn kind_tree(alloc: Global, kind: &str) -> Result<Value, NoMemory>
    ensures { IfOk result (λ value. view value ≡ kind_tree kind.now) }
{
    Ok(json!(in alloc; {"m_AssemblyName": "", "m_ClassName": kind})?)
}

fn kinds_tree(alloc: Global, kinds: &[Text]) -> Result<Value, NoMemory>
    ensures { IfOk result (λ value. view value ≡ kinds_tree kinds.now) }
{
    let mut values = Vec::new(alloc);
    for kind in kinds {
        values.push(kind_tree(alloc, kind.as_str())?)?;
    }
    Ok(Value::Array(values))
}

/// Puts the members that are the same in each document.
#[tactic(auto, unfolding(crate::specs::within::Put::with_fixed))]
fn put_fixed(alloc: Global, members: &mut Map<String, Value>) -> Result<(), NoMemory>
    ensures { OnOk result (members_view members.new.entries ≡ with_fixed (members_view members.old.entries)) }
{
    put(
        members,
        alloc,
        "m_InstanceProviderData",
        Value::Object(Map::new(alloc)),
    )?;
    put_text(
        alloc,
        members,
        "m_LocatorId",
        "AddressablesMainContentCatalog",
    )?;
    put(
        members,
        alloc,
        "m_ResourceProviderData",
        Value::Array(Vec::new(alloc)),
    )?;
    put(
        members,
        alloc,
        "m_SceneProviderData",
        Value::Object(Map::new(alloc)),
    )?;
    Ok(())
}

#[tactic(auto, unfolding(crate::specs::within::Put::with_strings))]
fn put_strings(
    alloc: Global,
    members: &mut Map<String, Value>,
    strings: &Strings,
) -> Result<(), NoMemory>
    ensures { OnOk result
        (members_view members.new.entries ≡ with_strings strings.now (members_view members.old.entries)) }
{
    put_text(
        alloc,
        members,
        "m_BucketDataString",
        strings.bucket.as_str(),
    )?;
    put_text(alloc, members, "m_EntryDataString", strings.entry.as_str())?;
    put_text(alloc, members, "m_ExtraDataString", strings.extra.as_str())?;
    put_text(alloc, members, "m_KeyDataString", strings.key.as_str())?;
    Ok(())
}

#[tactic(auto, unfolding(crate::specs::within::Put::with_lists))]
fn put_lists(alloc: Global, members: &mut Map<String, Value>, lists: &Lists) -> Result<(), NoMemory>
    ensures { OnOk result (members_view members.new.entries ≡ with_lists lists.now (members_view members.old.entries)) }
{
    let prefixes = texts_tree(alloc, lists.prefixes.as_slice())?;
    let internals = texts_tree(alloc, lists.internals.as_slice())?;
    let providers = texts_tree(alloc, lists.providers.as_slice())?;
    let kinds = kinds_tree(alloc, lists.kinds.as_slice())?;
    put(members, alloc, "m_InternalIdPrefixes", prefixes)?;
    put(members, alloc, "m_InternalIds", internals)?;
    put(members, alloc, "m_ProviderIds", providers)?;
    put(members, alloc, "m_resourceTypes", kinds)?;
    Ok(())
}

fn put_state(
    alloc: Global,
    members: &mut Map<String, Value>,
    state: Option<Digest>,
) -> Result<(), NoMemory>
    ensures put { OnOk result
        (members_view members.new.entries ≡ with_digest state (members_view members.old.entries)) }
    ensures sixteen { IsWellStated state }
{
    let Some(digest) = state else {
        return Ok(());
    };
    let digits = digest_tree(alloc, digest)?;
    put(members, alloc, "m_ContentState", digits)?;
    Ok(())
}

#[tactic(auto, using(crate::proofs::WrittenLemmas::members_written))]
fn document_tree(alloc: Global, document: &Document) -> Result<Value, NoMemory>
    ensures tree { IfOk result (λ value. view value ≡ document_tree document.now) }
    ensures sixteen { OnOk result (IsWellStated document.now.state) }
{
    let mut members = Map::new(alloc);
    put_fixed(alloc, &mut members)?;
    put_strings(alloc, &mut members, &document.strings)?;
    put_lists(alloc, &mut members, &document.lists)?;
    put_state(alloc, &mut members, document.state)?;
    Ok(Value::Object(members))
}

/// The text of a document (docs/formats/catalogue.md).
#[tactic(auto, unfolding(crate::specs::Written::document_text))]
pub fn write_document(alloc: Global, document: &Document) -> Result<Vec<u8>, NoMemory>
    // It is the one text that is described.
    ensures text { IfOk result (λ bytes. bytes.items ≡ document_text document.now) }
    // It reads back as the document.
    ensures again { IfOk result (λ bytes. document_read bytes.items ≡ Ok document.now) }
{
    let tree = document_tree(alloc, document)?;
    Ok(tree.to_vec(alloc)?)
}

fn options_tree(alloc: Global, options: &BundleOptions) -> Result<Value, NoMemory>
    ensures tree { IfOk result (λ value. view value ≡ options_tree options.now) }
    ensures sixteen { OnOk result (Are16Bytes options.now.digest.0) }
{
    let digits = digest_tree(alloc, options.digest)?;
    let (name, size) = (options.name.as_str(), options.size);
    Ok(json!(in alloc; {
        "m_BundleName": name,
        "m_BundleSize": size,
        "m_Crc": 0u32,
        "m_Hash": digits,
    })?)
}

/// The text of a bundle's options.
#[tactic(auto, unfolding(crate::specs::Written::options_text))]
pub fn write_options(alloc: Global, options: &BundleOptions) -> Result<Text, NoMemory>
    // It is the one text that is described.
    ensures text { IfOk result (λ text. text ≡ options_text options.now) }
    // It reads back as the options.
    ensures again { IfOk result (λ text. options_read text ≡ Some options.now) }
{
    let tree = options_tree(alloc, options)?;
    let text = tree.to_string(alloc)?;
    Ok(Text::from_string(text))
}
