// Which bundle the entry of an asset stands in.
ghost use Rattle.std.specs.Prelude.{◌≡◌, ℕ, ◌<◌, ◌^◌, length, vec_len, IfOk};
ghost use Rattle.std.specs.List.{All, AllZip};
ghost use Rattle.addr_walks.specs.Places.{EachAt};
ghost use Rattle.addr_walks.specs.Rows.{AreBelow};
ghost use Rattle.addr_layout.specs.Graph.{AreGuids, AreSeeds, IsEntryRank, is_free};
ghost use Rattle.addr_layout.specs.Members.{IsEntryOf, IsShared};
ghost use Rattle.addr_layout.specs.Owners.{AreOwners, Replaces};

use crate::guids::rank_of;
use addr_base::{Guid, Items, NoMemory};
use addr_pack::Plan;
use addr_project::Project;
use std::alloc::Global;

/// For each bundle the ranks of its entries.
pub fn seeds_of(
    alloc: Global,
    project: &Project,
    plan: &Plan,
    guids: &[Guid],
) -> Result<Items<Items<u32>>, NoMemory>
    requires guids { AreGuids project.now guids.now }
    requires shared { IsShared project.now plan.now }
    ensures as_many { IfOk result (λ seeds. length seeds ≡ length plan.now.bundles) }
    ensures seeds { IfOk result (EachAt (AreSeeds project.now plan.now guids.now)) }
{
    let mut seeds = Items::new(alloc);
    for bundle in plan.bundles.as_slice().iter() {
        seeds.push(entry_ranks(alloc, project, guids, bundle.entries.as_slice())?)?;
    }
    Ok(seeds)
}

fn entry_ranks(
    alloc: Global,
    project: &Project,
    guids: &[Guid],
    entries: &[u32],
) -> Result<Items<u32>, NoMemory>
    requires guids { AreGuids project.now guids.now }
    requires within { All (λ x. x < length project.now.entries) entries.now }
    ensures { IfOk result (AllZip (IsEntryRank project.now guids.now) entries.now) }
{
    let mut ranks = Items::new(alloc);
    for x in entries.iter() {
        let guid = entry_guid(project, *x);
        ranks.push(rank_of(guids, &guid))?;
    }
    Ok(ranks)
}

/// The GUID of an entry's asset.
fn entry_guid(project: &Project, x: u32) -> Guid
    requires { x < length project.now.entries }
    ensures { IsEntryOf project.now x result }
{
    project.kept();
    let entry = &project.entries()[x as usize];
    project.assets()[entry.asset as usize].guid
}

/// Beside each number below the size a row that it is in, where there is one.
pub fn owners_of(
    alloc: Global,
    rows: &[Items<u32>],
    size: usize,
) -> Result<Items<Option<u32>>, NoMemory>
    requires few { length rows.now < 2 ^ 32 }
    requires below { AreBelow rows.now size }
    ensures size { IfOk result (λ owners. length owners ≡ size) }
    ensures owners { IfOk result (AreOwners rows.now) }
{
    let mut owners = vec![in alloc; None; size]?;
    for (b, row) in rows.iter().enumerate() {
        own_all(&mut owners, row.as_slice(), b as u32);
    }
    Ok(Items::from_vec(owners))
}

fn own_all(owners: &mut Vec<Option<u32>>, row: &[u32], b: u32)
    requires { All (λ r. r < vec_len owners.old) row.now }
    ensures len { vec_len owners.new ≡ vec_len owners.old }
    ensures replaces { Replaces owners.old.items row.now b owners.new.items }
{
    for r in row.iter() {
        owners[*r as usize] = Some(b);
    }
}

/// Whether the asset at a rank is no entry.
pub fn is_free(bundles: &[Option<u32>], rank: u32) -> bool
    ensures { result ≡ is_free bundles.now rank }
{
    match bundles.get(rank as usize) {
        Some(bundle) => bundle.is_none(),
        None => true,
    }
}
