// A state as its text.
ghost use Rattle.std.specs.Prelude.{◌≡◌, ◌<◌, map, Ok, IfOk, OnOk};
ghost use Rattle.std.specs.List.{All};
ghost use Rattle.serde_json.specs.View.{view, items_of, members_view};
ghost use Rattle.serde_json.specs.Data.{array};
ghost use Rattle.addr_state.specs.within.Put.{with_names, with_ids, with_size, with_parts};
ghost use Rattle.addr_state.specs.Reading.{state_read};
ghost use Rattle.addr_state.specs.within.Kept.{AreGuids, HasIds};
ghost use Rattle.addr_state.specs.Sound.{IsSound};
ghost use Rattle.addr_state.specs.Written.{guids_tree, bundle_tree, state_tree, state_text};

use crate::model::{State, StateBundle};
use addr_base::{Guid, NoMemory};
use addr_json::{digest_tree, guid_tree, put_text, texts_tree};
use serde_json::{Map, Value, put};
use std::alloc::Global;

/// The version of the format.
const VERSION: u32 = 1;

fn guids_tree(alloc: Global, guids: &[Guid]) -> Result<Value, NoMemory>
    ensures tree { IfOk result (λ value. view value ≡ guids_tree guids.now) }
    ensures sixteen { OnOk result (AreGuids guids.now) }
{
    let mut values = Vec::new(alloc);
    for guid in guids {
        values.push(guid_tree(alloc, *guid)?)?;
    }
    Ok(Value::Array(values))
}

#[tactic(auto, unfolding(crate::specs::within::Put::with_names))]
fn put_names(
    alloc: Global,
    members: &mut Map<String, Value>,
    b: &StateBundle,
) -> Result<(), NoMemory>
    ensures { OnOk result (members_view members.new.entries ≡ with_names b.now (members_view members.old.entries)) }
{
    put_text(alloc, members, "file", b.file.as_str())?;
    put_text(alloc, members, "group", b.group.as_str())?;
    put_text(alloc, members, "id", b.id.as_str())?;
    put_text(alloc, members, "name", b.name.as_str())?;
    Ok(())
}

#[tactic(auto, unfolding(crate::specs::within::Put::with_ids))]
fn put_ids(alloc: Global, members: &mut Map<String, Value>, b: &StateBundle) -> Result<(), NoMemory>
    ensures put { OnOk result (members_view members.new.entries ≡ with_ids b.now (members_view members.old.entries)) }
    ensures sixteen { OnOk result (HasIds b.now) }
{
    let digest = digest_tree(alloc, b.digest)?;
    let entries = guids_tree(alloc, b.entries.as_slice())?;
    let objects = guids_tree(alloc, b.objects.as_slice())?;
    put(members, alloc, "digest", digest)?;
    put(members, alloc, "entries", entries)?;
    put(members, alloc, "objects", objects)?;
    Ok(())
}

#[tactic(auto, unfolding(crate::specs::within::Put::with_size))]
fn put_size(
    alloc: Global,
    members: &mut Map<String, Value>,
    b: &StateBundle,
) -> Result<(), NoMemory>
    ensures { OnOk result (members_view members.new.entries ≡ with_size b.now (members_view members.old.entries)) }
{
    put(members, alloc, "size", Value::from(b.size))?;
    Ok(())
}

fn bundle_tree(alloc: Global, b: &StateBundle) -> Result<Value, NoMemory>
    ensures tree { IfOk result (λ value. view value ≡ bundle_tree b.now) }
    ensures sixteen { OnOk result (HasIds b.now) }
{
    let mut members = Map::new(alloc);
    put_names(alloc, &mut members, b)?;
    put_ids(alloc, &mut members, b)?;
    put_size(alloc, &mut members, b)?;
    Ok(Value::Object(members))
}

fn bundles_tree(alloc: Global, bundles: &[StateBundle]) -> Result<Value, NoMemory>
    ensures tree { IfOk result (λ value. view value ≡ array (items_of (map bundle_tree bundles.now))) }
    ensures sixteen { OnOk result (All HasIds bundles.now) }
{
    let mut values = Vec::new(alloc);
    for bundle in bundles {
        values.push(bundle_tree(alloc, bundle)?)?;
    }
    Ok(Value::Array(values))
}

#[tactic(auto, unfolding(crate::specs::within::Put::with_parts))]
fn put_parts(alloc: Global, members: &mut Map<String, Value>, state: &State) -> Result<(), NoMemory>
    ensures put { OnOk result
        (members_view members.new.entries ≡ with_parts state.now (members_view members.old.entries)) }
    ensures sixteen { OnOk result (All HasIds state.now.bundles) }
{
    let bundles = bundles_tree(alloc, state.bundles.as_slice())?;
    let fixed = texts_tree(alloc, state.fixed.as_slice())?;
    put(members, alloc, "bundles", bundles)?;
    put(members, alloc, "fixed", fixed)?;
    put(members, alloc, "version", Value::from(VERSION))?;
    Ok(())
}

fn state_tree(alloc: Global, state: &State) -> Result<Value, NoMemory>
    ensures tree { IfOk result (λ value. view value ≡ state_tree state.now) }
    ensures sixteen { OnOk result (All HasIds state.now.bundles) }
{
    let mut members = Map::new(alloc);
    put_parts(alloc, &mut members, state)?;
    Ok(Value::Object(members))
}

/// The text of a state (docs/formats/content-state.md).
#[tactic(auto, unfolding(crate::specs::Written::state_text))]
pub fn write_state(alloc: Global, state: &State) -> Result<Vec<u8>, NoMemory>
    // It is the one text that is described.
    ensures text { IfOk result (λ bytes. bytes.items ≡ state_text state.now) }
    // It reads back as the state, where the state keeps the reader's rules.
    ensures again { IsSound state.now → IfOk result (λ bytes. state_read bytes.items ≡ Ok state.now) }
{
    let tree = state_tree(alloc, state)?;
    Ok(tree.to_vec(alloc)?)
}
