// Making and putting the bundles of a release, one after the other, so that one file is in memory at a time.
ghost use Rattle.std.specs.Prelude.{◌≡◌, if◌then◌else◌, length, IfOk};
ghost use Rattle.addr_layout.specs.KeptBundles.{IsNewAt};
ghost use Rattle.addr_layout.specs.Layout.{IsLayout};
ghost use Rattle.addr_pack.specs.Placement.{IsPlaced};
ghost use Rattle.addr_release.specs.Built.{IsBundleOf};
ghost use Rattle.addr_build.specs.Making.{IsMade, PutsOne};
ghost use Rattle.addr_build.specs.within.Building.{PutsBundles, release_bundle};
ghost use Rattle.addr_build.specs.Endings.{PutRose};

use crate::bundle_puts::put_bundle;
use crate::error::PutErr;
use addr_base::{Depot, Items, NoMemory};
use addr_images::{file_of, row_of, side_of};
use addr_layout::{Layout, placement_is_shared};
use addr_locate::BundleRow;
use addr_pack::Plan;
use addr_project::Project;
use std::alloc::Global;

/// A bundle of a release: its side, its row in the catalogue, and its file.
#[derive(Drop)]
pub(crate) struct MadeBundle {
    pub remote: bool,
    pub row: BundleRow,
    pub file: Items<u8>,
}

/// The row of a bundle, and whether its file was put.
#[derive(Drop)]
pub struct PutBundle {
    pub row: BundleRow,
    pub put: bool,
}

/// The rows of the bundles, and how many of their files were put.
#[derive(Drop)]
pub struct PutBundles {
    pub rows: Items<BundleRow>,
    pub put: usize,
}

fn make_bundle(
    alloc: Global,
    project: &Project,
    plan: &Plan,
    layout: &Layout,
    b: usize,
) -> Result<MadeBundle, NoMemory>
    requires new { IsNewAt plan.now b }
    requires laid { IsLayout project.now plan.now layout.now }
    ensures { IfOk result (λ made. IsMade project.now plan.now b (release_bundle made)) }
{
    let bundle = &plan.bundles.as_slice()[b];
    let remote = side_of(project, bundle);
    let file = file_of(alloc, project, plan, layout, b)?;
    let row = row_of(alloc, project, bundle, remote, file.as_slice())?;
    Ok(MadeBundle {
        remote,
        row,
        file: Items::from_vec(file),
    })
}

/// Makes a bundle that is written anew, and puts its file, which is let go.
pub fn put_new<D: Depot>(
    alloc: Global,
    depot: &mut D,
    folder: &str,
    project: &Project,
    plan: &Plan,
    layout: &Layout,
    b: usize,
) -> Result<PutBundle, PutErr>
    requires new { IsNewAt plan.now b }
    requires laid { IsLayout project.now plan.now layout.now }
    ensures puts { PutsOne (IsMade project.now plan.now) folder.now b (D.now depot.old) (D.now depot.new) result }
    ensures cause { PutRose (D.now depot.old).faults (D.now depot.new).faults result }
{
    let made = make_bundle(alloc, project, plan, layout, b)?;
    let key = made.row.key.as_str();
    let put = put_bundle(alloc, depot, folder, made.remote, key, made.file.as_slice())?;
    Ok(PutBundle { row: made.row, put })
}

fn count_of(put: bool) -> usize
    ensures { result ≡ (if put then 1 else 0) }
{
    if put { 1 } else { 0 }
}

/// Makes and puts the files of all bundles, in the order of their names.
pub(crate) fn put_bundles<D: Depot>(
    alloc: Global,
    depot: &mut D,
    folder: &str,
    project: &Project,
    plan: &Plan,
    layout: &Layout,
) -> Result<PutBundles, PutErr>
    requires placed { IsPlaced project.now plan.now }
    requires laid { IsLayout project.now plan.now layout.now }
    ensures puts { PutsBundles (IsBundleOf project.now plan.now) (length plan.now.bundles) folder.now
        (D.now depot.old) (D.now depot.new) result }
    ensures cause { PutRose (D.now depot.old).faults (D.now depot.new).faults result }
{
    placement_is_shared(project, plan);
    let mut rows = Items::new(alloc);
    let mut put = 0;
    for b in 0..plan.bundles.len() {
        let one = put_new(alloc, depot, folder, project, plan, layout, b)?;
        put += count_of(one.put);
        rows.push(one.row)?;
    }
    Ok(PutBundles { rows, put })
}
