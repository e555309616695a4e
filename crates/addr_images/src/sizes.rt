// The sizes of the files of all bundles, by lengths alone: no byte of an asset is copied, and no file is made.
ghost use Rattle.std.specs.Prelude.{◌≡◌, ◌<◌, ◌-◌, ◌^◌, length, map, min, IfOk};
ghost use Rattle.std.specs.List.{All};
ghost use Rattle.addr_cab.specs.Sizes.{node_sizes};
ghost use Rattle.addr_layout.specs.Layout.{IsLayout};
ghost use Rattle.addr_layout.specs.Members.{IsShared};
ghost use Rattle.addr_unityfs.specs.Sizes.{file_size};
ghost use Rattle.addr_images.specs.Sizes.{IsBytesCount, IsSizeAt};
ghost use Rattle.addr_images.specs.within.Outside.{names_told};
ghost use Rattle.addr_images.specs.within.Told.{asset_size};

use crate::outside::outside_count;
use addr_base::NoMemory;
use addr_cab::{ObjectSize, cab_file_size, table_laws};
use addr_layout::{LayBundle, Layout, references_are_led};
use addr_pack::Plan;
use addr_project::Project;
use addr_unityfs::bundle_laws;
use std::alloc::Global;

/// The lengths of some assets.
fn asset_sizes(
    alloc: Global,
    project: &Project,
    members: &[u32],
) -> Result<Vec<ObjectSize>, NoMemory>
    requires { All (λ n. n < length project.now.assets) members.now }
    ensures { IfOk result (λ sizes. sizes.items ≡ map (asset_size project.now) members.now) }
{
    let mut sizes = Vec::with_capacity(alloc, members.len())?;
    for n in members {
        let asset = &project.assets()[*n as usize];
        sizes.push(ObjectSize {
            bytes: asset.bytes.len() as u64,
            refs: asset.refs.len() as u64,
        })?;
    }
    Ok(sizes)
}

/// The size of the file of a bundle that is laid out so, by the lengths of its members and the names that these lead to.
fn laid_size(
    alloc: Global,
    project: &Project,
    plan: &Plan,
    lay: &LayBundle,
) -> Result<u64, NoMemory>
    requires { All (λ n. n < length project.now.assets) lay.now.members }
    ensures { IfOk result (λ n. n ≡ min (file_size (length project.now.version)
        (node_sizes (length (names_told plan.now lay.now.direct))
        (map (asset_size project.now) lay.now.members))) (2 ^ 64 - 1)) }
{
    let sizes = asset_sizes(alloc, project, lay.members.as_slice())?;
    let outside = outside_count(alloc, plan, lay.direct.as_slice())?;
    let player = project.version().len() as u64;
    Ok(cab_file_size(player, outside, &sizes))
}

/// The size of a bundle's file, and none for a kept bundle.
fn size_at(
    alloc: Global,
    project: &Project,
    plan: &Plan,
    layout: &Layout,
    b: usize,
) -> Result<u64, NoMemory>
    requires within { b < length plan.now.bundles }
    requires shared { IsShared project.now plan.now }
    requires laid { IsLayout project.now plan.now layout.now }
    ensures size { IfOk result (IsSizeAt project.now plan.now b) }
    ensures small { IfOk result (λ n. n < 2 ^ 29) }
{
    project.kept();
    references_are_led(project, plan, layout);
    table_laws();
    bundle_laws();
    if plan.bundles.as_slice()[b].kept {
        return Ok(0);
    }
    let lay = &layout.bundles.as_slice()[b];
    let size = laid_size(alloc, project, plan, lay)?;
    Ok(size)
}

/// How many bytes the files of all bundles have together; a kept bundle counts none. Takes time and memory as the layout does:
/// an asset counts by its length in each bundle that has a copy of it.
pub fn bundle_bytes(
    alloc: Global,
    project: &Project,
    plan: &Plan,
    layout: &Layout,
) -> Result<u64, NoMemory>
    requires few { length plan.now.bundles < 2 ^ 31 }
    requires shared { IsShared project.now plan.now }
    requires laid { IsLayout project.now plan.now layout.now }
    ensures { IfOk result (IsBytesCount project.now plan.now) }
{
    let mut total = 0;
    for b in 0..plan.bundles.len() {
        let size = size_at(alloc, project, plan, layout, b)?;
        total += size;
    }
    Ok(total)
}
