// The content state that bytes are.
ghost use Rattle.std.specs.Prelude.{◌≡◌, ◌≢◌, ◌≤◌, [], codes, length, IfOk, IfSome, Err};
ghost use Rattle.std.specs.Option.{option_map, option_copied};
ghost use Rattle.serde_json.specs.View.{view, items_view, members_view};
ghost use Rattle.addr_state.specs.declared.error.StateErr.TheVariants as faults;
ghost use Rattle.addr_reading.specs.Gives.{Gives};
ghost use Rattle.addr_reading.specs.Steps.{or_fault};
ghost use Rattle.addr_json.specs.Members.{required, tree_of};
ghost use Rattle.addr_state.specs.Reading.{bundle_read, row_read, rows_read, few_items, fixed_of, version_of, value_read, state_read};
ghost use Rattle.addr_state.specs.Rules.{last_name, entries_of, keeps_rules};
ghost use Rattle.addr_state.specs.within.Seen.{HasGuids};

use crate::error::StateErr;
use crate::members::{digest_member, guids_member, size_member, text_member};
use crate::model::{State, StateBundle};
use crate::rules::{has_lists, has_texts, texts_ascend};
use crate::seen::{add_all, none_seen};
use addr_base::{Guid, Items, NoMemory, Text};
use addr_json::{array_at, as_texts, member, read_tree, size_at};
use serde_json::{Map, Value};
use std::alloc::Global;
use std::collections::BTreeSet;

/// The most bundles that a state may have.
const MAX_BUNDLES: usize = 65536;

fn tree_of(alloc: Global, bytes: &[u8]) -> Result<Value, StateErr>
    ensures { Gives faults.NoMemory view result (or_fault faults.Json (tree_of bytes.now)) }
{
    match read_tree(alloc, bytes)? {
        Some(tree) => Ok(tree),
        None => Err(StateErr::Json),
    }
}

/// The members of a bundle, whatever they say.
#[tactic(auto, unfolding(crate::specs::Reading::bundle_read))]
fn read_bundle(
    alloc: Global,
    object: &Map<String, Value>,
    fault: StateErr,
) -> Result<StateBundle, StateErr>
    ensures { Gives faults.NoMemory (λ b. b) result (bundle_read fault (members_view object.now.entries)) }
{
    let digest = digest_member(object, "digest", fault)?;
    let entries = guids_member(alloc, object, "entries", fault)?;
    let file = text_member(alloc, object, "file", fault)?;
    let group = text_member(alloc, object, "group", fault)?;
    let id = text_member(alloc, object, "id", fault)?;
    let name = text_member(alloc, object, "name", fault)?;
    let objects = guids_member(alloc, object, "objects", fault)?;
    let size = size_member(object, "size", fault)?;
    Ok(StateBundle {
        name,
        file,
        id,
        group,
        digest,
        size,
        entries,
        objects,
    })
}

/// The name of the last bundle.
fn last_name(bundles: &[StateBundle]) -> Option<&[u8]>
    ensures { option_copied result ≡ last_name bundles.now }
{
    match bundles.last() {
        Some(bundle) => Some(bundle.name.as_bytes()),
        None => None,
    }
}

fn keeps_rules(
    alloc: Global,
    before: &[StateBundle],
    earlier: &BTreeSet<Guid>,
    b: &StateBundle,
) -> Result<bool, NoMemory>
    ensures { HasGuids earlier.now (entries_of before.now) → IfOk result (λ good. good ≡ keeps_rules before.now b.now) }
{
    let texts = has_texts(alloc, last_name(before), b)?;
    let lists = has_lists(alloc, earlier, b)?;
    Ok(texts && lists)
}

/// A bundle behind those before it.
#[tactic(auto, unfolding(crate::specs::Reading::row_read))]
fn read_row(
    alloc: Global,
    before: &[StateBundle],
    earlier: &BTreeSet<Guid>,
    value: &Value,
) -> Result<StateBundle, StateErr>
    requires { length before.now ≤ 65536 }
    ensures { HasGuids earlier.now (entries_of before.now) → Gives faults.NoMemory
        (λ b. b) result (row_read before.now (view value.now)) }
{
    let fault = StateErr::Row {
        n: before.len() as u32,
    };
    let Some(object) = value.as_object() else {
        return Err(fault);
    };
    let bundle = read_bundle(alloc, object, fault)?;
    if keeps_rules(alloc, before, earlier, &bundle)? {
        Ok(bundle)
    } else {
        Err(fault)
    }
}

/// The bundles that values are, up to the first that is none.
fn read_rows(alloc: Global, values: &[Value]) -> Result<Items<StateBundle>, StateErr>
    requires { length values.now ≤ 65536 }
    ensures { Gives faults.NoMemory (λ bs. bs) result (rows_read [] (items_view values.now)) }
{
    let mut bundles: Items<StateBundle> = Items::new(alloc);
    let mut earlier = none_seen(alloc);
    for value in values {
        let bundle = read_row(alloc, bundles.as_slice(), &earlier, value)?;
        add_all(&mut earlier, bundle.entries.as_slice())?;
        bundles.push(bundle)?;
    }
    Ok(bundles)
}

fn rows_at(object: &Map<String, Value>) -> Option<&[Value]>
    ensures few { option_map
        (λ vs. items_view vs.now) result ≡ required few_items (codes "bundles") (members_view object.now.entries) }
    ensures bound { IfSome result (λ vs. length vs.now ≤ 65536) }
{
    match array_at(object, "bundles") {
        Some(values) => {
            if values.len() <= MAX_BUNDLES {
                Some(values)
            } else {
                None
            }
        }
        None => None,
    }
}

fn fixed_member(alloc: Global, object: &Map<String, Value>) -> Result<Items<Text>, StateErr>
    ensures { Gives faults.NoMemory
        (λ ts. ts) result
        (or_fault faults.Member (required fixed_of (codes "fixed") (members_view object.now.entries))) }
{
    let Some(value) = member(object, "fixed") else {
        return Err(StateErr::Member);
    };
    match as_texts(alloc, value)? {
        Some(texts) => {
            if texts_ascend(texts.as_slice()) {
                Ok(texts)
            } else {
                Err(StateErr::Member)
            }
        }
        None => Err(StateErr::Member),
    }
}

fn version_member(object: &Map<String, Value>) -> Result<u64, StateErr>
    ensures { Gives faults.NoMemory (λ n. n) result
        (or_fault faults.Member (required version_of (codes "version") (members_view object.now.entries))) }
{
    match size_at(object, "version") {
        Some(1) => Ok(1),
        _ => Err(StateErr::Member),
    }
}

/// The state that a value is.
#[tactic(auto, unfolding(crate::specs::Reading::value_read))]
fn read_value(alloc: Global, tree: &Value) -> Result<State, StateErr>
    ensures { Gives faults.NoMemory (λ s. s) result (value_read (view tree.now)) }
{
    let Some(object) = tree.as_object() else {
        return Err(StateErr::Member);
    };
    let Some(rows) = rows_at(object) else {
        return Err(StateErr::Member);
    };
    let fixed = fixed_member(alloc, object)?;
    version_member(object)?;
    let bundles = read_rows(alloc, rows)?;
    Ok(State { bundles, fixed })
}

/// Reads a content state (docs/formats/content-state.md).
#[tactic(auto, unfolding(crate::specs::Reading::state_read))]
pub fn read_state(alloc: Global, bytes: &[u8]) -> Result<State, StateErr>
    // Unless memory was refused, the answer is what the bytes are read as: their state or its first fault.
    ensures exact { Gives faults.NoMemory (λ state. state) result (state_read bytes.now) }
    // No fault is want of memory.
    ensures named { state_read bytes.now ≢ Err faults.NoMemory }
{
    let tree = tree_of(alloc, bytes)?;
    read_value(alloc, &tree)
}
