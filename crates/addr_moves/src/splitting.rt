// What is kept and what moves: each bundle of the state that stays with its kept entries, and the numbers of all moved ones.
ghost use Rattle.std.specs.Prelude.{◌≡◌, ◌<◌, ◌^◌, length, map, vec_len, IfOk, OnOk, List};
ghost use Rattle.std.specs.List.{AllZip};
ghost use Rattle.addr_locate.specs.Rows.{Rows};
ghost use Rattle.addr_pack.specs.declared.bundles.Plan.{Plan as PlanOf};
ghost use Rattle.addr_release.specs.Opened.{Opened};
ghost use Rattle.addr_moves.specs.Fates.{AreFates, comparing};
ghost use Rattle.addr_moves.specs.within.Split.{AreKeptRows, KeptUpTo, PutsKept, with_kept};
ghost use Rattle.addr_moves.specs.Stays.{StaysAs};
ghost use Rattle.addr_update.specs.Placement.{IsSplit};
ghost use Rattle.addr_walks.specs.Once.{AreOnce};

use crate::fate::Fate;
use crate::stays::stays_of;
use crate::telling::moved_of;
use addr_base::{Items, NoMemory, Text};
use addr_project::Project;
use addr_state::{State, StateBundle};
use addr_update::KeptBundle;
use std::alloc::Global;

/// What is kept and what moves.
#[derive(Drop)]
pub struct Split {
    pub kept: Items<KeptBundle>,
    /// Ascending.
    pub moved: Items<u32>,
}

/// Puts the number of an entry that is kept into its bundle's row, where there is one.
fn put_kept(rows: &mut Vec<Items<u32>>, fate: Fate, x: u32) -> Result<(), NoMemory>
    ensures len { OnOk result (vec_len rows.new ≡ vec_len rows.old) }
    ensures put { OnOk result (PutsKept fate x rows.old.items rows.new.items) }
{
    match fate {
        Fate::Free => Ok(()),
        Fate::Moves(_) => Ok(()),
        Fate::Kept(m) => {
            if (m as usize) < rows.len() {
                rows[m as usize].push(x)?;
            }
            Ok(())
        }
    }
}

/// For each of so many bundles the numbers of the entries that are kept in it, ascending.
fn kept_rows(alloc: Global, fates: &[Fate], count: usize) -> Result<Items<Items<u32>>, NoMemory>
    requires few { length fates.now < 2 ^ 32 }
    ensures many { IfOk result (λ rows. length rows ≡ count) }
    ensures rows { IfOk result (AreKeptRows fates.now (length fates.now)) }
{
    let mut rows: Vec<Items<u32>> = Vec::new(alloc);
    for _ in 0..count {
        rows.push(Items::new(alloc))?;
    }
    for x in 0..fates.len() {
        put_kept(&mut rows, fates[x], x as u32)?;
    }
    Ok(Items::from_vec(rows))
}

/// Adds a bundle that stays.
fn add_kept(
    alloc: Global,
    kept: &mut Items<KeptBundle>,
    old: &StateBundle,
    group: Option<u32>,
    entries: &[u32],
) -> Result<(), NoMemory>
    ensures { OnOk result (kept.new ≡ with_kept old.now group entries.now kept.old) }
{
    match group {
        None => Ok(()),
        Some(group) => {
            let name = Text::copy_of(alloc, old.name.as_str())?;
            let entries = Items::copy_of(alloc, entries)?;
            kept.push(KeptBundle {
                name,
                group,
                entries,
            })?;
            Ok(())
        }
    }
}

/// Each bundle of the state that stays with the entries that are kept in it.
fn kept_of(
    alloc: Global,
    project: &Project,
    state: &State,
    fates: &[Fate],
) -> Result<Items<KeptBundle>, NoMemory>
    requires few { length fates.now < 2 ^ 32 }
    ensures { IfOk result (KeptUpTo state.now project.now fates.now (length state.now.bundles)) }
{
    let bundles = state.bundles.as_slice();
    let stays = stays_of(alloc, project, state)?;
    let groups = stays.as_slice();
    let made = kept_rows(alloc, fates, bundles.len())?;
    let rows = made.as_slice();
    let mut kept = Items::new(alloc);
    for m in 0..bundles.len() {
        add_kept(alloc, &mut kept, &bundles[m], groups[m], rows[m].as_slice())?;
    }
    Ok(kept)
}

/// The bundles of the state that stay with their kept entries, and the numbers of all entries that move, by what becomes of each
/// entry. Linear, but for a look-up for each bundle of the state.
pub fn split_of(
    alloc: Global,
    project: &Project,
    state: &State,
    fates: &[Fate],
) -> Result<Split, NoMemory>
    requires many { length fates.now ≡ length project.now.entries }
    ensures split { IfOk result (λ split. (was : List Opened) (r : Rows) (now : PlanOf)
        → AreFates (comparing state.now was r project.now now) fates.now
        → IsSplit (comparing state.now was r project.now now) split.kept split.moved) }
    // Where no two bundles of the state have one name, no bundle is kept twice.
    ensures once { IfOk result (λ split. AreOnce (map (λ b. b.name) state.now.bundles)
        → AreOnce (map (λ b. b.name) split.kept)) }
{
    project.kept();
    let kept = kept_of(alloc, project, state, fates)?;
    let moved = moved_of(alloc, fates)?;
    Ok(Split { kept, moved })
}
