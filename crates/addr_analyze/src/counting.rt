// How many bundles each asset is a member of, and which assets are entries: arrays by the numbers of assets.
ghost use Rattle.std.specs.Prelude.{◌≡◌, ◌+◌, ◌<◌, ◌^◌, length, vec_len, IfOk};
ghost use Rattle.std.specs.List.{All};
ghost use Rattle.addr_layout.specs.Layout.{IsLayout};
ghost use Rattle.addr_pack.specs.Placement.{IsPlaced};
ghost use Rattle.addr_analyze.specs.Counting.{AreCounts, AreMarks, IsCounted};

use addr_base::NoMemory;
use addr_layout::Layout;
use addr_pack::Plan;
use addr_project::Project;
use std::alloc::Global;

/// Beside each asset how many bundles it is a member of.
pub fn counts_of(
    alloc: Global,
    project: &Project,
    plan: &Plan,
    layout: &Layout,
) -> Result<Vec<u32>, NoMemory>
    requires placed { IsPlaced project.now plan.now }
    requires laid { IsLayout project.now plan.now layout.now }
    ensures { IfOk result (λ counts. AreCounts (length project.now.assets) layout.now.bundles counts.items) }
{
    project.kept();
    let mut counts = vec![in alloc; 0u32; project.assets().len()]?;
    for lay in layout.bundles.as_slice().iter() {
        count_all(&mut counts, lay.members.as_slice());
    }
    Ok(counts)
}

fn count_all(counts: &mut Vec<u32>, members: &[u32])
    requires within { All (λ n. n < vec_len counts.old) members.now }
    requires room { All (λ count. count + length members.now < 2 ^ 32) counts.old.items }
    ensures len { vec_len counts.new ≡ vec_len counts.old }
    ensures counted { IsCounted counts.old.items members.now counts.new.items }
{
    for n in members.iter() {
        counts[*n as usize] += 1;
    }
}

/// Beside each asset whether it is an entry's.
pub fn entry_marks(alloc: Global, project: &Project) -> Result<Vec<bool>, NoMemory>
    ensures { IfOk result (λ marks. AreMarks (length project.now.assets) project.now.entries marks.items) }
{
    project.kept();
    let mut marks = vec![in alloc; false; project.assets().len()]?;
    for entry in project.entries().iter() {
        marks[entry.asset as usize] = true;
    }
    Ok(marks)
}
