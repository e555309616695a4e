// The duplicates of a placement: each bundle's members are counted once, and only what is found is brought into order.
ghost use Rattle.std.specs.Prelude.{◌≡◌, ◌<◌, ◌^◌, length, map, vec_len, slice_index_or, IfOk};
ghost use Rattle.std.specs.List.{filter, range_with_len, sum_by};
ghost use Rattle.addr_layout.specs.Layout.{IsLayout};
ghost use Rattle.addr_pack.specs.Placement.{IsPlaced};
ghost use Rattle.addr_analyze.specs.Counting.{duplicate_at, is_copied};
ghost use Rattle.addr_analyze.specs.Duplicates.{AreDuplicates};

use crate::counting::{counts_of, entry_marks};
use crate::duplicate::Duplicate;
use addr_base::{Items, NoMemory};
use addr_layout::Layout;
use addr_pack::Plan;
use addr_project::Project;
use std::alloc::Global;

/// The assets that are no entries and are members of two bundles or more, in the order of their GUIDs. No clause: it costs one look
/// at each member, asset and entry, and the sorting of what is found.
pub fn duplicates(
    alloc: Global,
    project: &Project,
    plan: &Plan,
    layout: &Layout,
) -> Result<Items<Duplicate>, NoMemory>
    requires placed { IsPlaced project.now plan.now }
    requires laid { IsLayout project.now plan.now layout.now }
    ensures { IfOk result (AreDuplicates project.now plan.now) }
{
    project.kept();
    let counts = counts_of(alloc, project, plan, layout)?;
    let entries = entry_marks(alloc, project)?;
    let mut found = copied(alloc, project, &counts, &entries)?;
    found.sort_unstable_by_key(|duplicate| duplicate.guid);
    Ok(Items::from_vec(found))
}

/// Them in the order of the project's assets.
fn copied(
    alloc: Global,
    project: &Project,
    counts: &[u32],
    entries: &[bool],
) -> Result<Vec<Duplicate>, NoMemory>
    requires counts { length counts.now ≡ length project.now.assets }
    requires entries { length entries.now ≡ length project.now.assets }
    ensures { IfOk result (λ found. found.items ≡ map (duplicate_at project.now counts.now)
        (filter (is_copied counts.now entries.now) (range_with_len 0 (length project.now.assets)))) }
{
    project.kept();
    let mut found = Vec::new(alloc);
    for n in 0..project.assets().len() {
        if is_copied(counts, entries, n) {
            found.push(duplicate_at(project, counts, n))?;
        }
    }
    Ok(found)
}

/// Whether an asset is no entry and has two copies or more.
fn is_copied(counts: &[u32], entries: &[bool], n: usize) -> bool
    requires counts { n < length counts.now }
    requires entries { n < length entries.now }
    ensures { result ≡ is_copied counts.now entries.now n }
{
    !entries[n] && counts[n] > 1
}

fn duplicate_at(project: &Project, counts: &[u32], n: usize) -> Duplicate
    requires asset { n < length project.now.assets }
    requires count { n < length counts.now }
    requires copied { 1 < slice_index_or counts.now n 0 }
    ensures { result ≡ duplicate_at project.now counts.now n }
{
    project.kept();
    let asset = &project.assets()[n];
    let bundles = counts[n];
    Duplicate {
        asset: n as u32,
        guid: asset.guid,
        bundles,
        wasted: (bundles - 1) as u64 * asset.bytes.len() as u64,
    }
}

/// The bytes that all duplicates of a placement waste together.
pub fn wasted(project: &Project, plan: &Plan, found: &[Duplicate]) -> u64
    requires placed { IsPlaced project.now plan.now }
    requires found { AreDuplicates project.now plan.now found.now }
    ensures { result ≡ sum_by (λ duplicate. duplicate.wasted) found.now }
{
    project.kept();
    let mut total = 0;
    for duplicate in found {
        total += duplicate.wasted;
    }
    total
}
