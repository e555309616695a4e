// Whether a locator's rows can be written as a catalogue: the condition of `write_catalog`, decided when the program runs.
ghost use Rattle.std.specs.Prelude.{◌≡◌, ◌<◌, ◌^◌, ◌↔◌, nat_lt, length, IsTrue, IfOk};
ghost use Rattle.std.specs.List.{list_all};
ghost use Rattle.addr_catalog.specs.Few.{AreFew};
ghost use Rattle.addr_catalog.specs.Written.{table_rows, CanWrite};
ghost use Rattle.addr_tables.specs.Sizes.{AreSmall};

use crate::key_numbers::{KeyNumbers, all_deps};
use crate::written_rows::table_rows;
use addr_base::NoMemory;
use addr_locate::{AssetRow, Locator};
use addr_tables::are_small;
use std::alloc::Global;

/// So many rows and keys together have tables above their bound.
const TOO_MANY: usize = 1 << 30;

fn have_keys(assets: &[AssetRow]) -> bool
    ensures { result ≡ list_all (λ a. nat_lt 0 (length a.keys)) assets.now }
{
    assets.iter().all(|asset| asset.keys.len() > 0)
}

fn are_few(locator: &Locator) -> bool
    ensures { IsTrue result ↔ AreFew locator.now }
{
    let rows = locator.bundles().len() + locator.assets().len();
    rows.saturating_add(locator.keys().len()) < TOO_MANY
}

fn have_small_tables(alloc: Global, locator: &Locator) -> Result<bool, NoMemory>
    requires { AreFew locator.now }
    ensures { IfOk result (λ yes. IsTrue yes ↔ AreSmall (table_rows locator.now)) }
{
    let deps = all_deps(alloc, locator.assets())?;
    let numbers = KeyNumbers::of(alloc, locator, &deps)?;
    let rows = table_rows(alloc, &numbers)?;
    Ok(are_small(&rows))
}

/// Whether a catalogue can be written: each asset row has a key, and each table stays below 2^31 bytes. The rows of the tables are
/// made to be measured, and let go: time and memory are linear in their size, but for the ordered maps that `write_catalog` has too.
pub fn can_write(alloc: Global, locator: &Locator) -> Result<bool, NoMemory>
    ensures { IfOk result (λ yes. IsTrue yes ↔ CanWrite locator.now) }
{
    locator.are_rows();
    if !have_keys(locator.assets()) {
        return Ok(false);
    }
    if !are_few(locator) {
        return Ok(false);
    }
    have_small_tables(alloc, locator)
}
