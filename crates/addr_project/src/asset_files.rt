// The files of the assets, read row by row. A file that is missing is told before any size, so after the first size that
// passes a limit the rest is read only to see that it is there, and let go; a file that was read before is there.
ghost use Rattle.std.specs.BTreeSet.{contains_by};
ghost use Rattle.std.specs.Cmp.Lexicographic.{slice_cmp};
ghost use Rattle.std.specs.Option.{is_some};
ghost use Rattle.std.specs.Ordering.{nat_cmp};
ghost use Rattle.std.specs.Prelude.{◌≡◌, ◌<◌, ◌≤◌, ◌+◌, ◌^◌, ◌&&◌, Some, IfOk, IfSome, IfNone, string_bytes, vec_len};
ghost use Rattle.addr_base.specs.Files.{SameStore};
ghost use Rattle.addr_project.specs.AssetFiles.{ReadsAssets, KeepsRows};
ghost use Rattle.addr_project.specs.Limits.{most};
ghost use Rattle.addr_project.specs.Loading.{Adds};
ghost use Rattle.addr_project.specs.Reading.{path, asset_from, over_after};
ghost use Rattle.addr_project.specs.Causes.{FaultHasCause};
ghost use Rattle.addr_project.specs.declared.limit.Limit.TheVariants as limit;

use crate::counts::over;
use crate::error::ProjectErr;
use crate::limit::Limit;
use crate::loaded::Loaded;
use crate::model::Asset;
use crate::rows::AssetRow;
use addr_base::{Depot, Items, NoMemory, Text};
use addr_project_rows::row_number;
use std::alloc::Global;
use std::collections::BTreeSet;

/// The depot's name of a file below the folder.
pub fn path_of(alloc: Global, folder: &str, name: &str) -> Result<String, NoMemory>
    ensures { IfOk result (λ text. string_bytes text ≡ path folder.now name.now) }
{
    let mut text = String::from_str(alloc, folder)?;
    text.push_str("/")?;
    text.push_str(name)?;
    Ok(text)
}

/// The assets of the rows with the bytes of their files, or the first fault of the files.
pub fn read_assets<D: Depot>(
    alloc: Global,
    depot: &mut D,
    folder: &str,
    rows: &[AssetRow],
) -> Result<Items<Asset>, ProjectErr>
    ensures told { IfSome (D.now depot.old).files (λ files. ReadsAssets files folder.now rows.now result) }
    ensures kept { IfOk result (KeepsRows rows.now) }
    ensures same { SameStore (D.now depot.old) (D.now depot.new) }
    ensures cause { FaultHasCause (D.now depot.old).faults (D.now depot.new).faults result }
{
    let mut loaded = Loaded {
        assets: Items::new(alloc),
        total: 0,
        over: None,
    };
    let mut seen = BTreeSet::new(alloc);
    for (i, row) in rows.iter().enumerate() {
        let file = row.file.as_str();
        if is_known(&loaded, &seen, file) {
            continue;
        }
        let name = path_of(alloc, folder, file)?;
        match depot.read(alloc, name.as_str())? {
            Some(bytes) => {
                loaded = load(alloc, loaded, row, bytes)?;
                match seen.insert(file) {
                    Ok(_) => {}
                    Err(_) => return Err(ProjectErr::NoMemory),
                }
            }
            None => return Err(ProjectErr::MissingFile {
                row: row_number(i)?,
            }),
        }
    }
    match loaded.over {
        Some(fault) => Err(fault),
        None => Ok(loaded.assets),
    }
}

/// Nothing more is kept, and the file is there, since it was read before.
fn is_known(loaded: &Loaded, seen: &BTreeSet<&str>, file: &str) -> bool
    ensures { result ≡ (is_some loaded.now.over && contains_by (λ key. slice_cmp nat_cmp file.now key.now) seen.now) }
{
    loaded.over.is_some() && seen.contains(file)
}

/// One more file.
fn load(alloc: Global, loaded: Loaded, row: &AssetRow, bytes: Vec<u8>) -> Result<Loaded, NoMemory>
    requires short { vec_len bytes < 2 ^ 32 }
    requires small { loaded.total ≤ most limit.AllBytes }
    ensures adds { IfOk result (Adds loaded row.now bytes.items) }
    ensures small { IfOk result (λ new. new.total ≤ most limit.AllBytes) }
{
    if loaded.over.is_some() {
        return Ok(loaded);
    }
    let length = bytes.len() as u64;
    let fault = over_after(loaded.total, length);
    if fault.is_some() {
        let Loaded {
            assets,
            total,
            over: _,
        } = loaded;
        return Ok(Loaded {
            assets,
            total,
            over: fault,
        });
    }
    let asset = asset_from(alloc, row, bytes)?;
    let Loaded {
        mut assets,
        total,
        over: _,
    } = loaded;
    assets.push(asset)?;
    Ok(Loaded {
        assets,
        total: total + length,
        over: None,
    })
}

fn asset_from(alloc: Global, row: &AssetRow, bytes: Vec<u8>) -> Result<Asset, NoMemory>
    ensures { IfOk result (λ asset. asset ≡ asset_from row.now (Some bytes.items)) }
{
    let kind = Text::copy_of(alloc, row.kind.as_str())?;
    let refs = Items::copy_of(alloc, row.refs.as_slice())?;
    Ok(Asset {
        guid: row.guid,
        kind,
        bytes: Items::from_vec(bytes),
        refs,
    })
}

/// The fault of a file's length after those before it.
fn over_after(total: u64, length: u64) -> Option<ProjectErr>
    requires { total + length < 2 ^ 64 }
    ensures value { result ≡ over_after total length }
    ensures small { IfNone result (total + length ≤ most limit.AllBytes) }
{
    over(Limit::AssetBytes, length).or(over(Limit::AllBytes, total + length))
}
