// Members of a bundle and of a state that must be there, or else a fault.
ghost use Rattle.std.specs.Prelude.{◌≡◌, IfOk};
ghost use Rattle.serde_json.specs.Find.{as_str};
ghost use Rattle.serde_json.specs.View.{view, items_view, members_view};
ghost use Rattle.addr_reading.specs.Gives.{Gives};
ghost use Rattle.addr_reading.specs.Steps.{or_fault};
ghost use Rattle.addr_json.specs.Members.{all_items, required, digest_in, guid_in, size_of};
ghost use Rattle.addr_state.specs.Reading.{guids_of};
ghost use Rattle.addr_state.specs.declared.error.StateErr.TheVariants as faults;

use crate::error::StateErr;
use addr_base::{Digest, Guid, Items, NoMemory, Text};
use addr_json::{as_digest, as_guid, member, size_at, text_at};
use serde_json::{Map, Value};
use std::alloc::Global;

pub fn text_member(
    alloc: Global,
    object: &Map<String, Value>,
    key: &str,
    fault: StateErr,
) -> Result<Text, StateErr>
    ensures { Gives faults.NoMemory
        (λ t. t) result (or_fault fault (required as_str key.now (members_view object.now.entries))) }
{
    match text_at(object, key) {
        Some(text) => Ok(Text::copy_of(alloc, text)?),
        None => Err(fault),
    }
}

fn digest_at(object: &Map<String, Value>, key: &str) -> Option<Digest>
    ensures { result ≡ required digest_in key.now (members_view object.now.entries) }
{
    match member(object, key) {
        Some(value) => as_digest(value),
        None => None,
    }
}

pub fn digest_member(
    object: &Map<String, Value>,
    key: &str,
    fault: StateErr,
) -> Result<Digest, StateErr>
    ensures { Gives faults.NoMemory
        (λ d. d) result (or_fault fault (required digest_in key.now (members_view object.now.entries))) }
{
    match digest_at(object, key) {
        Some(digest) => Ok(digest),
        None => Err(fault),
    }
}

pub fn size_member(object: &Map<String, Value>, key: &str, fault: StateErr) -> Result<u64, StateErr>
    ensures { Gives faults.NoMemory
        (λ n. n) result (or_fault fault (required size_of key.now (members_view object.now.entries))) }
{
    match size_at(object, key) {
        Some(size) => Ok(size),
        None => Err(fault),
    }
}

/// The GUID of each value, where all are GUIDs.
fn guids_in(alloc: Global, values: &[Value]) -> Result<Option<Items<Guid>>, NoMemory>
    ensures { IfOk result (λ guids. guids ≡ all_items guid_in (items_view values.now)) }
{
    let mut guids = Items::new(alloc);
    for value in values {
        let Some(guid) = as_guid(value) else {
            return Ok(None);
        };
        guids.push(guid)?;
    }
    Ok(Some(guids))
}

fn as_guids(alloc: Global, value: &Value) -> Result<Option<Items<Guid>>, NoMemory>
    ensures { IfOk result (λ guids. guids ≡ guids_of (view value.now)) }
{
    match value.as_array() {
        Some(values) => guids_in(alloc, values.as_slice()),
        None => Ok(None),
    }
}

pub fn guids_member(
    alloc: Global,
    object: &Map<String, Value>,
    key: &str,
    fault: StateErr,
) -> Result<Items<Guid>, StateErr>
    ensures { Gives faults.NoMemory
        (λ gs. gs) result (or_fault fault (required guids_of key.now (members_view object.now.entries))) }
{
    let Some(value) = member(object, key) else {
        return Err(fault);
    };
    match as_guids(alloc, value)? {
        Some(guids) => Ok(guids),
        None => Err(fault),
    }
}
