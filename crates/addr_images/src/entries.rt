// The rows of the entries: each asset with its type, its bundle and all that this one needs, and its keys.
ghost use Rattle.std.specs.Prelude.{◌≡◌, ◌<◌, ◌^◌, length, map, IfOk};
ghost use Rattle.std.specs.List.{AllZip};
ghost use Rattle.addr_layout.specs.Members.{IsShared};
ghost use Rattle.addr_release.specs.Built.{IsEntryRowAs};
ghost use Rattle.addr_walks.specs.Rows.{AreBelow, Edge};
ghost use Rattle.addr_images.specs.within.Deps.{IsRowTold};

use crate::keys::{guid_digits, keys_told};
use crate::owners::{owner_at, owners_of};
use addr_base::{BundleNo, Items, NoMemory, Text};
use addr_layout::closed;
use addr_locate::PlainAsset;
use addr_pack::Plan;
use addr_project::Project;
use std::alloc::Global;

fn bundle_numbers(alloc: Global, deps: &[u32]) -> Result<Items<BundleNo>, NoMemory>
    ensures { IfOk result (λ numbers. numbers ≡ map (λ n. record { 0 = n }) deps.now) }
{
    let mut numbers = Items::new(alloc);
    for n in deps {
        numbers.push(BundleNo(*n))?;
    }
    Ok(numbers)
}

/// The row of an entry, in a bundle with these dependencies.
fn row_told(
    alloc: Global,
    project: &Project,
    x: usize,
    deps: &[u32],
) -> Result<PlainAsset, NoMemory>
    requires within { x < length project.now.entries }
    ensures { IfOk result (IsRowTold project.now x deps.now) }
{
    project.kept();
    let entry = &project.entries()[x];
    let asset = &project.assets()[entry.asset as usize];
    let id = guid_digits(alloc, asset.guid)?;
    let keys = keys_told(alloc, entry, id.as_str())?;
    Ok(PlainAsset {
        id,
        kind: Text::copy_of(alloc, asset.kind.as_str())?,
        deps: bundle_numbers(alloc, deps)?,
        keys,
    })
}

/// The row of each entry, in the order of the project, where bundles need what their rows of `direct` say. Each row is made once,
/// and nothing is looked for.
pub fn entries_over(
    alloc: Global,
    project: &Project,
    plan: &Plan,
    direct: &[Items<u32>],
) -> Result<Vec<PlainAsset>, NoMemory>
    requires few { length plan.now.bundles < 2 ^ 31 }
    requires shared { IsShared project.now plan.now }
    requires many { length direct.now ≡ length plan.now.bundles }
    requires below { AreBelow direct.now (length direct.now) }
    ensures { IfOk result
        (λ rows. AllZip (IsEntryRowAs project.now plan.now (Edge direct.now)) project.now.entries rows.items) }
{
    project.kept();
    let deps = closed(alloc, direct)?;
    let owners = owners_of(alloc, project, plan)?;
    let mut rows = Vec::new(alloc);
    for x in 0..project.entries().len() {
        let b = owner_at(project, plan, &owners, x);
        let deps = deps.as_slice()[b as usize].as_slice();
        rows.push(row_told(alloc, project, x, deps)?)?;
    }
    Ok(rows)
}
