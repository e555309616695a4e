// Putting an update: its bundles in the order of their names, the catalogue, and the hash.
ghost use Rattle.std.specs.Prelude.{◌≡◌, ◌<◌, if◌then◌else◌, length, map, IfOk, IfSome};
ghost use Rattle.addr_build.specs.Endings.{PutRose};
ghost use Rattle.addr_build.specs.Making.{IsKeyed, PutsOne};
ghost use Rattle.addr_check.specs.Comparing.{update_of};
ghost use Rattle.addr_held.specs.Opening.{HoldsRelease};
ghost use Rattle.addr_state.specs.Sound.{IsSound};
ghost use Rattle.addr_walks.specs.Once.{AreOnce};
ghost use Rattle.addr_patch.specs.within.Preparing.{IsPrepared};
ghost use Rattle.addr_patch.specs.within.Putting.{AreThere, Grows, IsCatalogueAfter, IsPutBundle, LaysBundles, PutsUpdate};

use crate::kept::put_kept;
use crate::preparing::Prepared;
use addr_base::{Depot, Items, NoMemory};
use addr_build::{PutBundle, PutBundles, PutErr, Summary, put_catalogue, put_new};
use addr_check::Compared;
use addr_images::{catalogue_over, entries_over};
use addr_locate::BundleRow;
use std::alloc::Global;

/// Puts one bundle of the update: a new one is made first, a kept one's name is looked at.
fn put_one<D: Depot>(
    alloc: Global,
    depot: &mut D,
    folder: &str,
    compared: &Compared,
    prepared: &Prepared,
    b: usize,
) -> Result<PutBundle, PutErr>
    requires within { b < length prepared.now.plan.bundles }
    requires sound { IsSound compared.now.release.state }
    requires prepared { IsPrepared (update_of compared.now) prepared.now }
    // Where the files of the state are there.
    ensures puts { IfSome (D.now depot.old).files (AreThere compared.exit.now.release.state folder.now)
        → PutsOne (IsPutBundle (update_of compared.exit.now) prepared.now.plan folder.now (D.now depot.old)) folder.now b
        (D.now depot.old) (D.now depot.new) result }
    ensures keyed { IfOk result (λ one. IsKeyed prepared.now.plan b one.row.key) }
    ensures grows { Grows (D.now depot.old) (D.now depot.new) }
    ensures cause { PutRose (D.now depot.old).faults (D.now depot.new).faults result }
{
    let number = prepared.olds.as_slice()[b];
    match number {
        Some(m) => {
            let old = &compared.release.state.bundles.as_slice()[m as usize];
            let row = &prepared.rows.as_slice()[m as usize];
            put_kept(alloc, depot, folder, old, row)
        }
        None => put_new(
            alloc,
            depot,
            folder,
            &compared.project,
            &prepared.plan,
            &prepared.layout,
            b,
        ),
    }
}

fn count_of(put: bool) -> usize
    ensures { result ≡ (if put then 1 else 0) }
{
    if put { 1 } else { 0 }
}

/// Puts the bundles of the update in the order of their names.
fn put_bundles<D: Depot>(
    alloc: Global,
    depot: &mut D,
    folder: &str,
    compared: &Compared,
    prepared: &Prepared,
) -> Result<PutBundles, PutErr>
    requires sound { IsSound compared.now.release.state }
    requires prepared { IsPrepared (update_of compared.now) prepared.now }
    requires there { IfSome (D.now depot.old).files (AreThere compared.now.release.state folder.now) }
    ensures puts { LaysBundles (update_of compared.exit.now) prepared.now.plan folder.now (D.now depot.old) (D.now depot.new) result }
    ensures cause { PutRose (D.now depot.old).faults (D.now depot.new).faults result }
{
    let mut rows = Items::new(alloc);
    let mut put = 0;
    for b in 0..prepared.plan.bundles.len() {
        let one = put_one(alloc, depot, folder, compared, prepared, b)?;
        put += count_of(one.put);
        rows.push(one.row)?;
    }
    Ok(PutBundles { rows, put })
}

/// The catalogue over these bundle rows. It names the state that the present one names.
fn catalogue_bytes(
    alloc: Global,
    compared: &Compared,
    prepared: &Prepared,
    rows: Items<BundleRow>,
) -> Result<Vec<u8>, NoMemory>
    requires prepared { IsPrepared (update_of compared.now) prepared.now }
    requires many { length rows ≡ length prepared.now.plan.bundles }
    requires apart { AreOnce (map (λ row. row.key) rows) }
    ensures { IfOk result (λ bytes. IsCatalogueAfter (update_of compared.exit.now) prepared.now.plan rows
        compared.exit.now.release.catalogue.state bytes.items) }
{
    let direct = prepared.needs.as_slice();
    let assets = entries_over(alloc, &compared.project, &prepared.plan, direct)?;
    let state = compared.release.catalogue.state;
    let bytes = catalogue_over(
        alloc,
        &compared.project,
        &prepared.plan,
        direct,
        rows,
        assets,
        state,
    )?;
    Ok(bytes)
}

/// Puts an update that is prepared. A kept bundle's file is where the state says; only the other side is looked at.
pub(crate) fn put_update<D: Depot>(
    alloc: Global,
    depot: &mut D,
    folder: &str,
    compared: &Compared,
    prepared: &Prepared,
) -> Result<Summary, PutErr>
    requires sound { IsSound compared.now.release.state }
    requires held { IfSome (D.now depot.old).files (λ files. HoldsRelease files folder.now compared.now.release) }
    requires prepared { IsPrepared (update_of compared.now) prepared.now }
    ensures puts { PutsUpdate (update_of compared.exit.now) prepared.now folder.now compared.exit.now.release.catalogue.state
        (D.now depot.old) (D.now depot.new) result }
    ensures cause { PutRose (D.now depot.old).faults (D.now depot.new).faults result }
{
    compared.project.kept();
    let laid = put_bundles(alloc, depot, folder, compared, prepared)?;
    let summary = Summary {
        moved: prepared.moved,
        bundles: prepared.plan.bundles.len() as u32,
        put: laid.put as u32,
        rows: compared.project.entries().len() as u32,
    };
    let catalogue = catalogue_bytes(alloc, compared, prepared, laid.rows)?;
    put_catalogue(alloc, depot, folder, catalogue.as_slice())?;
    Ok(summary)
}
