// The options of a bundle, from their text.
ghost use Rattle.std.specs.Prelude.{◌≡◌, IfOk};
ghost use Rattle.serde_json.specs.View.{members_view};
ghost use Rattle.addr_json.specs.Members.{required};
ghost use Rattle.addr_catalog_json.specs.Members.{hash_of};
ghost use Rattle.addr_catalog_json.specs.Options.{options_in, options_read};

use crate::members::as_hash;
use addr_base::{Digest, NoMemory, Text};
use addr_json::{member, size_at, text_at};
use serde_json::{Map, Value};
use std::alloc::Global;

/// The size in bytes, the digest and the internal name of a bundle.
#[derive(Drop)]
pub struct BundleOptions {
    pub digest: Digest,
    pub name: Text,
    pub size: u64,
}

fn hash_at(object: &Map<String, Value>, key: &str) -> Option<Digest>
    ensures { result ≡ required hash_of key.now (members_view object.now.entries) }
{
    match member(object, key) {
        Some(value) => as_hash(value),
        None => None,
    }
}

#[tactic(auto, unfolding(crate::specs::Options::options_in))]
fn options_in(alloc: Global, object: &Map<String, Value>) -> Result<Option<BundleOptions>, NoMemory>
    ensures { IfOk result (λ options. options ≡ options_in (members_view object.now.entries)) }
{
    let Some(digest) = hash_at(object, "m_Hash") else {
        return Ok(None);
    };
    let Some(name) = text_at(object, "m_BundleName") else {
        return Ok(None);
    };
    let Some(size) = size_at(object, "m_BundleSize") else {
        return Ok(None);
    };
    let name = Text::copy_of(alloc, name)?;
    Ok(Some(BundleOptions { digest, name, size }))
}

/// The options of the object that a text is, and None where it is none or lacks one.
#[tactic(auto, unfolding(crate::specs::Options::options_read))]
pub fn read_options(alloc: Global, text: &str) -> Result<Option<BundleOptions>, NoMemory>
    ensures { IfOk result (λ options. options ≡ options_read text.now) }
{
    match Value::from_str(alloc, text) {
        Ok(value) => match value.as_object() {
            Some(object) => options_in(alloc, object),
            None => Ok(None),
        },
        Err(error) => {
            if error.is_memory() {
                Err(NoMemory)
            } else {
                Ok(None)
            }
        }
    }
}
