// GUIDs in ascending order, and what stands beside them.
ghost use Rattle.std.specs.Prelude.{◌≡◌, ◌<◌, ◌≤◌, length, map, Some, IfOk};
ghost use Rattle.std.specs.List.{All, Contains, slice_get};
ghost use Rattle.std.specs.List.Sorted.{IsStrictlySortedBy};
ghost use Rattle.addr_project.specs.Reach.{guid_cmp};
ghost use Rattle.addr_layout.specs.Graph.{AreGuids, AreBeside, AreRanks, AreRefRanks};
ghost use Rattle.addr_layout.specs.Members.{IsNumbered};

use addr_base::{Guid, Items, NoMemory};
use addr_project::{Asset, Project};
use std::alloc::Global;

pub fn guids_in_order(alloc: Global, project: &Project) -> Result<Items<Guid>, NoMemory>
    ensures { IfOk result (AreGuids project.now) }
{
    project.kept();
    let mut guids = guids_of(alloc, project.assets())?;
    guids.sort_unstable();
    Ok(Items::from_vec(guids))
}

fn guids_of(alloc: Global, assets: &[Asset]) -> Result<Vec<Guid>, NoMemory>
    ensures { IfOk result (λ guids. guids.items ≡ map (λ asset. asset.guid) assets.now) }
{
    let guids = assets.iter().map(|asset| asset.guid).collect(alloc)?;
    Ok(guids)
}

/// The place of a GUID that is among those in ascending order.
pub fn rank_of(guids: &[Guid], guid: &Guid) -> u32
    requires few { length guids.now ≤ 65536 }
    requires rising { IsStrictlySortedBy guid_cmp guids.now }
    requires here { Contains guids.now guid.now }
    ensures { slice_get guids.now result ≡ Some guid.now }
{
    match guids.binary_search(guid) {
        Ok(rank) => rank as u32,
        Err(_) => unreachable!(),
    }
}

/// Beside each GUID the number of its asset.
pub fn numbers_of(alloc: Global, project: &Project, guids: &[Guid]) -> Result<Items<u32>, NoMemory>
    requires { AreGuids project.now guids.now }
    ensures { IfOk result (AreBeside guids.now (λ g n. IsNumbered project.now n g)) }
{
    let mut numbers = vec![in alloc; 0u32; guids.len()]?;
    for (n, asset) in project.assets().iter().enumerate() {
        let rank = rank_of(guids, &asset.guid);
        numbers[rank as usize] = n as u32;
    }
    Ok(Items::from_vec(numbers))
}

/// Beside each GUID the ranks of its asset's references.
pub fn refs_of(
    alloc: Global,
    project: &Project,
    guids: &[Guid],
    numbers: &[u32],
) -> Result<Items<Items<u32>>, NoMemory>
    requires guids { AreGuids project.now guids.now }
    requires numbers { AreBeside guids.now (λ g n. IsNumbered project.now n g) numbers.now }
    ensures { IfOk result (AreBeside guids.now (AreRefRanks project.now guids.now)) }
{
    project.kept();
    let assets = project.assets();
    let mut refs = Items::new(alloc);
    for n in numbers.iter() {
        refs.push(ranks_of(alloc, guids, assets[*n as usize].refs.as_slice())?)?;
    }
    Ok(refs)
}

fn ranks_of(alloc: Global, guids: &[Guid], refs: &[Guid]) -> Result<Items<u32>, NoMemory>
    requires few { length guids.now ≤ 65536 }
    requires rising { IsStrictlySortedBy guid_cmp guids.now }
    requires here { All (Contains guids.now) refs.now }
    ensures { IfOk result (AreRanks guids.now refs.now) }
{
    let mut ranks = Items::new(alloc);
    for guid in refs.iter() {
        ranks.push(rank_of(guids, guid))?;
    }
    Ok(ranks)
}
