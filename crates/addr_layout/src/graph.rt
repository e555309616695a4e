// A project as rows of numbers, made once, over which every bundle's search goes.
ghost use Rattle.std.specs.Prelude.{◌≡◌, ◌<◌, ◌^◌, length, map, IfOk};
ghost use Rattle.std.specs.List.{All, filter};
ghost use Rattle.addr_layout.specs.Graph.{IsGraph, IsSized, is_free, refs_at, seeds_at};
ghost use Rattle.addr_layout.specs.Members.{IsShared};

use crate::guids::{guids_in_order, numbers_of, refs_of};
use crate::placing::{is_free, owners_of, seeds_of};
use addr_base::{Guid, Items, NoMemory};
use addr_pack::Plan;
use addr_project::Project;
use std::alloc::Global;

/// An asset's rank is its place in the order of GUIDs. Each list but `seeds` has something for each rank.
#[derive(Drop)]
pub struct Graph {
    /// In ascending order.
    pub guids: Items<Guid>,
    /// The asset's number.
    pub numbers: Items<u32>,
    /// The ranks of the references, in their order.
    pub refs: Items<Items<u32>>,
    /// For each bundle the ranks of its entries.
    pub seeds: Items<Items<u32>>,
    /// The bundle of the asset's entry, or None where the asset is no entry.
    pub bundles: Items<Option<u32>>,
    /// The ranks of the references to assets that are no entries.
    pub within: Items<Items<u32>>,
}

impl Graph {
    /// The ranks of a bundle's entries.
    pub fn seeds_at(&self, b: usize) -> &[u32]
        requires within { b < length self.now.seeds }
        requires sized { IsSized self.now }
        ensures value { result.now ≡ seeds_at self.now b }
        ensures below { All (λ s. s < length self.now.within) result.now }
    {
        self.seeds.as_slice()[b].as_slice()
    }

    /// The ranks of the references at a rank.
    pub fn refs_at(&self, rank: u32) -> &[u32]
        requires within { rank < length self.now.guids }
        requires sized { IsSized self.now }
        ensures value { result.now ≡ refs_at self.now rank }
        ensures below { All (λ r. r < length self.now.guids) result.now }
    {
        self.refs.as_slice()[rank as usize].as_slice()
    }
}

pub fn graph_of(alloc: Global, project: &Project, plan: &Plan) -> Result<Graph, NoMemory>
    requires few { length plan.now.bundles < 2 ^ 32 }
    requires shared { IsShared project.now plan.now }
    ensures graph { IfOk result (IsGraph project.now plan.now) }
    ensures sized { IfOk result IsSized }
{
    let guids = guids_in_order(alloc, project)?;
    let sorted = guids.as_slice();
    let numbers = numbers_of(alloc, project, sorted)?;
    let refs = refs_of(alloc, project, sorted, numbers.as_slice())?;
    let seeds = seeds_of(alloc, project, plan, sorted)?;
    let bundles = owners_of(alloc, seeds.as_slice(), sorted.len())?;
    let within = within_of(alloc, refs.as_slice(), bundles.as_slice())?;
    Ok(Graph {
        guids,
        numbers,
        refs,
        seeds,
        bundles,
        within,
    })
}

fn within_of(
    alloc: Global,
    refs: &[Items<u32>],
    bundles: &[Option<u32>],
) -> Result<Items<Items<u32>>, NoMemory>
    ensures { IfOk result (λ within. within ≡ map (filter (is_free bundles.now)) refs.now) }
{
    let mut within = Items::new(alloc);
    for row in refs.iter() {
        within.push(free_of(alloc, row.as_slice(), bundles)?)?;
    }
    Ok(within)
}

fn free_of(alloc: Global, row: &[u32], bundles: &[Option<u32>]) -> Result<Items<u32>, NoMemory>
    ensures { IfOk result (λ free. free ≡ filter (is_free bundles.now) row.now) }
{
    let mut free = Items::new(alloc);
    for rank in row.iter() {
        if is_free(bundles, *rank) {
            free.push(*rank)?;
        }
    }
    Ok(free)
}
