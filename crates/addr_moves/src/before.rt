// Which entries have moved already: the first row of the present catalogue for the entry leads to the bundle of moved entries.
ghost use Rattle.std.specs.Prelude.{◌≡◌, ◌↔◌, map, IfOk, IsTrue};
ghost use Rattle.addr_base.specs.Ids.{digest_of, hex_of};
ghost use Rattle.addr_moves.specs.Firsts.{AreFirsts, number_under};
ghost use Rattle.addr_moves.specs.Olds.{AreBefore};
ghost use Rattle.addr_moves.specs.within.Rows.{IsMovedIn, LeadsToMoved};
ghost use Rattle.addr_update.specs.Moved.{moved_name};

use crate::digits::digits_of;
use crate::entries::guid_of;
use crate::firsts::{firsts_of, number_under};
use addr_base::{Guid, Items, NoMemory, digest, is_same};
use addr_locate::{AssetRow, Locator};
use addr_project::Project;
use std::alloc::Global;
use std::collections::BTreeMap;

/// The name of the bundle of moved entries.
const MOVED_NAME: &[u8] = b"Content~20Update_assets_all";

fn moved_digits() -> [u8; 32]
    ensures { result ≡ hex_of (digest_of moved_name) }
{
    digits_of(digest(MOVED_NAME).0)
}

/// Whether an asset row has the bundle with an internal name as its first dependency.
fn leads_to(locator: &Locator, row: &AssetRow, digits: &[u8]) -> bool
    ensures { IsTrue result ↔ LeadsToMoved locator.now digits.now row.now }
{
    match row.deps.get(0) {
        None => false,
        Some(first) => match locator.bundles().get(first.0 as usize) {
            None => false,
            Some(bundle) => is_same(bundle.name.as_bytes(), digits),
        },
    }
}

fn is_before(locator: &Locator, ids: &BTreeMap<&[u8], u32>, digits: &[u8], guid: Guid) -> bool
    requires ids { AreFirsts (map (λ row. row.id) locator.now.assets) (number_under ids.now) }
    ensures { IsTrue result ↔ IsMovedIn locator.now digits.now guid }
{
    match number_under(ids, &digits_of(guid.0)) {
        None => false,
        Some(k) => leads_to(locator, &locator.assets()[k as usize], digits),
    }
}

/// For each entry whether it has moved already. A look-up for each row of the catalogue and for each entry.
pub fn moved_before(
    alloc: Global,
    project: &Project,
    locator: &Locator,
) -> Result<Items<bool>, NoMemory>
    ensures { IfOk result (AreBefore locator.now project.now) }
{
    let ids = firsts_of(alloc, locator.assets())?;
    let digits = moved_digits();
    let mut before = Items::new(alloc);
    for x in 0..project.entries().len() {
        before.push(is_before(locator, &ids, &digits, guid_of(project, x)))?;
    }
    Ok(before)
}
