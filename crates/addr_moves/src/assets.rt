// The project's assets by GUID, and where their references lead, by number.
ghost use Rattle.std.specs.Prelude.{◌≡◌, ◌<◌, length, map, IfOk, OnOk};
ghost use Rattle.std.specs.List.{AllZip};
ghost use Rattle.addr_moves.specs.Firsts.{AreFirsts, number_under};
ghost use Rattle.addr_moves.specs.within.Assets.{AreFound, with_found};

use crate::firsts::{firsts_of, number_under};
use addr_base::{Guid, Items, NoMemory};
use addr_project::Project;
use std::alloc::Global;
use std::collections::BTreeMap;

/// The number of each asset, by its GUID.
pub(crate) fn numbers_of<'a>(
    alloc: Global,
    project: &'a Project,
) -> Result<BTreeMap<&'a [u8], u32>, NoMemory>
    ensures { IfOk result (λ numbers. AreFirsts (map (λ asset. asset.guid.0) project.now.assets) (number_under numbers)) }
{
    project.kept();
    let numbers = firsts_of(alloc, project.assets())?;
    Ok(numbers)
}

fn add_found(row: &mut Items<u32>, found: Option<u32>) -> Result<(), NoMemory>
    ensures { OnOk result (row.new ≡ with_found found row.old) }
{
    match found {
        None => Ok(()),
        Some(n) => {
            row.push(n)?;
            Ok(())
        }
    }
}

/// The numbers of the assets with some GUIDs.
fn found_of(
    alloc: Global,
    numbers: &BTreeMap<&[u8], u32>,
    guids: &[Guid],
) -> Result<Items<u32>, NoMemory>
    ensures { IfOk result (AreFound (number_under numbers.now) guids.now) }
{
    let mut row = Items::new(alloc);
    for guid in guids {
        add_found(&mut row, number_under(numbers, &guid.0))?;
    }
    Ok(row)
}

/// For each asset the numbers of those to which it refers.
pub(crate) fn refs_of(
    alloc: Global,
    project: &Project,
    numbers: &BTreeMap<&[u8], u32>,
) -> Result<Items<Items<u32>>, NoMemory>
    ensures { IfOk result (AllZip (λ asset row. AreFound (number_under numbers.now) asset.refs row) project.now.assets) }
{
    let mut rows = Items::new(alloc);
    for asset in project.assets() {
        rows.push(found_of(alloc, numbers, asset.refs.as_slice())?)?;
    }
    Ok(rows)
}
