// Members of a document that must be there, or else its fault, and the digest of a bundle.
ghost use Rattle.std.specs.Prelude.{◌≡◌};
ghost use Rattle.serde_json.specs.Find.{as_str};
ghost use Rattle.serde_json.specs.View.{view, members_view};
ghost use Rattle.addr_reading.specs.Gives.{Gives};
ghost use Rattle.addr_reading.specs.Steps.{or_fault};
ghost use Rattle.addr_json.specs.Members.{required};
ghost use Rattle.addr_catalog_json.specs.Document.{texts_of};
ghost use Rattle.addr_catalog_json.specs.Members.{hash_of};
ghost use Rattle.addr_catalog_json.specs.declared.error.DocErr.TheVariants as faults;

use crate::error::DocErr;
use addr_base::{Digest, Items, Text};
use addr_json::{as_digest, as_texts, member, text_at};
use serde_json::{Map, Value};
use std::alloc::Global;

pub fn text_member(
    alloc: Global,
    object: &Map<String, Value>,
    key: &str,
    which: u8,
) -> Result<Text, DocErr>
    ensures { Gives faults.NoMemory
        (λ t. t) result
        (or_fault (faults.Member which) (required as_str key.now (members_view object.now.entries))) }
{
    match text_at(object, key) {
        Some(text) => Ok(Text::copy_of(alloc, text)?),
        None => Err(DocErr::Member { which }),
    }
}

pub fn texts_member(
    alloc: Global,
    object: &Map<String, Value>,
    key: &str,
    which: u8,
) -> Result<Items<Text>, DocErr>
    ensures { Gives faults.NoMemory
        (λ t. t) result
        (or_fault (faults.Member which) (required texts_of key.now (members_view object.now.entries))) }
{
    let Some(value) = member(object, key) else {
        return Err(DocErr::Member { which });
    };
    match as_texts(alloc, value)? {
        Some(texts) => Ok(texts),
        None => Err(DocErr::Member { which }),
    }
}

/// The digest of a bundle; the empty text stands for the digest of 16 zero bytes.
pub fn as_hash(value: &Value) -> Option<Digest>
    ensures { result ≡ hash_of (view value.now) }
{
    match value.as_str() {
        Some("") => Some(Digest([0; 16])),
        _ => as_digest(value),
    }
}
