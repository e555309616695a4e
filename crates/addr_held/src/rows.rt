// The rows that a catalogue has for the bundles of a state.
ghost use Rattle.std.specs.Prelude.{◌≡◌, IfOk};
ghost use Rattle.std.specs.List.{AllZip};
ghost use Rattle.addr_base.specs.Ids.{digest_of, hex_of};
ghost use Rattle.addr_update.specs.After.{IsRowOfOld};

use addr_base::{Digest, Items, NoMemory, Text};
use addr_cab::internal_name;
use addr_locate::BundleRow;
use addr_state::{State, StateBundle, file_name};
use std::alloc::Global;

fn digits_of(alloc: Global, name: Digest) -> Result<Text, NoMemory>
    ensures { IfOk result (λ digits. digits ≡ hex_of name.0) }
{
    let digits = format!(in alloc; "{name}")?;
    Ok(Text::from_string(digits))
}

fn row_of(alloc: Global, old: &StateBundle) -> Result<BundleRow, NoMemory>
    ensures { IfOk result (IsRowOfOld old.now) }
{
    let key = file_name(alloc, old.name.as_str(), old.digest)?;
    let id = Text::copy_of(alloc, old.id.as_str())?;
    let name = digits_of(alloc, internal_name(old.name.as_str()))?;
    Ok(BundleRow {
        key,
        size: old.size,
        digest: old.digest,
        name,
        id,
    })
}

/// The rows of a state's bundles, in its order: file, id, size, digest and internal name of each. By them the bundles are found
/// by the names that references have. A digest of each name, and memory for the texts.
pub fn rows_of_state(alloc: Global, state: &State) -> Result<Items<BundleRow>, NoMemory>
    ensures { IfOk result (AllZip IsRowOfOld state.now.bundles) }
{
    let mut rows: Items<BundleRow> = Items::new(alloc);
    let bundles = state.bundles.as_slice();
    for old in bundles {
        let row = row_of(alloc, old)?;
        rows.push(row)?;
    }
    Ok(rows)
}
