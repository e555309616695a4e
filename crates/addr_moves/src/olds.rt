// The old bundle of each entry: GUIDs of the state's entries in fixed groups lead to their bundles by an ordered map.
ghost use Rattle.std.specs.Prelude.{◌<◌, ◌^◌, length, IfOk, OnOk};
ghost use Rattle.addr_state.specs.Sound.{EntriesOnce};
ghost use Rattle.addr_moves.specs.Firsts.{number_under};
ghost use Rattle.addr_moves.specs.Olds.{AreOlds};
ghost use Rattle.addr_moves.specs.within.Holders.{AddsBundle, AddsEach, AreHolders, IsOldIn};

use crate::entries::{group_of, guid_of};
use crate::firsts::{firsts_of, number_under};
use addr_base::{Guid, Items, NoMemory, is_same};
use addr_project::{Group, Project};
use addr_state::{State, StateBundle};
use std::alloc::Global;
use std::collections::BTreeMap;

fn add_entries<'a>(
    holders: &mut BTreeMap<&'a [u8], u32>,
    guids: &'a [Guid],
    m: u32,
) -> Result<(), NoMemory>
    ensures { OnOk result (AddsEach (number_under holders.old) guids.now m (number_under holders.new)) }
{
    for guid in guids {
        holders.insert(&guid.0, m)?;
    }
    Ok(())
}

/// Adds the entries of a bundle whose group is fixed in the state.
fn add_bundle<'a>(
    holders: &mut BTreeMap<&'a [u8], u32>,
    fixed: &BTreeMap<&[u8], u32>,
    old: &'a StateBundle,
    m: u32,
) -> Result<(), NoMemory>
    ensures { OnOk result (AddsBundle (number_under fixed.now) (number_under holders.old) old.now m (number_under holders.new)) }
{
    if number_under(fixed, old.group.as_bytes()).is_none() {
        return Ok(());
    }
    add_entries(holders, old.entries.as_slice(), m)?;
    Ok(())
}

/// The bundle of the state that has an entry, among those whose group is fixed there.
fn holders_of<'a>(alloc: Global, state: &'a State) -> Result<BTreeMap<&'a [u8], u32>, NoMemory>
    requires few { length state.now.bundles < 2 ^ 32 }
    ensures { IfOk result (λ holders. AreHolders state.now (length state.now.bundles) (number_under holders)) }
{
    let fixed = firsts_of(alloc, state.fixed.as_slice())?;
    let bundles = state.bundles.as_slice();
    let mut holders = BTreeMap::new(alloc);
    for (m, old) in bundles.iter().enumerate() {
        add_bundle(&mut holders, &fixed, old, m as u32)?;
    }
    Ok(holders)
}

/// The bundle of the state in whose fixed group of that name an entry stands.
fn old_of(state: &State, holders: &BTreeMap<&[u8], u32>, guid: Guid, group: &Group) -> Option<u32>
    requires once { EntriesOnce state.now.bundles }
    requires holders { AreHolders state.now (length state.now.bundles) (number_under holders.now) }
    ensures { IsOldIn state.now guid group.now.name result }
{
    match number_under(holders, &guid.0) {
        None => None,
        Some(m) => {
            let old = &state.bundles.as_slice()[m as usize];
            if is_same(old.group.as_bytes(), group.name.as_bytes()) {
                Some(m)
            } else {
                None
            }
        }
    }
}

/// For each entry its old bundle, by its number in the state; none where it is unknown. A look-up for each entry, here and in the
/// state.
pub fn old_bundles(
    alloc: Global,
    project: &Project,
    state: &State,
) -> Result<Items<Option<u32>>, NoMemory>
    requires few { length state.now.bundles < 2 ^ 32 }
    requires once { EntriesOnce state.now.bundles }
    ensures { IfOk result (AreOlds state.now project.now) }
{
    project.kept();
    let holders = holders_of(alloc, state)?;
    let mut olds = Items::new(alloc);
    for x in 0..project.entries().len() {
        let guid = guid_of(project, x);
        olds.push(old_of(state, &holders, guid, group_of(project, x)))?;
    }
    Ok(olds)
}
