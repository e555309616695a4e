// A catalogue from its bytes: the document, the rows of its tables, all entries as bundles, and then all entries as assets.
// The order of the walks is the order of the faults.
ghost use Rattle.std.specs.Prelude.{◌≡◌, ◌≢◌, ◌<◌, ◌^◌, ◌-◌, List, map, min, length, IfOk, Ok, Err};
ghost use Rattle.std.specs.List.{range_with_len};
ghost use Rattle.addr_catalog.specs.declared.error.CatErr.TheVariants as faults;
ghost use Rattle.addr_catalog.specs.Catalogue.{somes, locator_read, catalogue_read};
ghost use Rattle.addr_catalog.specs.Tables.{tables_of};
ghost use Rattle.addr_catalog_json.specs.Document.{document_read};
ghost use Rattle.addr_catalog.specs.Entries.{keys_holding, bundle_read, asset_read, numbers_from};
ghost use Rattle.addr_reading.specs.Gives.{Gives};
ghost use Rattle.addr_catalog.specs.Steps.{read_each};
ghost use Rattle.addr_catalog.specs.FaultsBelow.{of_documents, of_tables};
ghost use Rattle.addr_catalog.specs.TableRows.{AreTableRows, capped};
ghost use Rattle.addr_tables.specs.Faults.{rows_read};

use crate::catalogue::Catalogue;
use crate::entry_rows::{read_asset, read_bundle};
use crate::error::CatErr;
use crate::inverted::invert;
use crate::numbering::number_bundles;
use addr_base::{Items, NoMemory};
use addr_catalog_json::{Document, Lists, Strings, read_document};
use addr_locate::{BundleRow, Locator, PlainAsset, of_rows};
use addr_tables::{Rows, Tables, decode};
use std::alloc::Global;

/// The length as a count of four bytes; no number names what comes after that many.
fn count_of(len: usize) -> u32
    ensures { result ≡ min len (2 ^ 32 - 1) }
{
    u32::try_from(len).unwrap_or(u32::MAX)
}

fn tables_of(strings: Strings, lists: &Lists) -> Tables
    ensures { result ≡ capped (tables_of lists.now strings) }
{
    let Strings {
        key,
        bucket,
        entry,
        extra,
    } = strings;
    Tables {
        key,
        bucket,
        entry,
        extra,
        internals: count_of(lists.internals.len()),
        providers: count_of(lists.providers.len()),
        kinds: count_of(lists.kinds.len()),
    }
}

/// The rows of the document's tables.
fn read_tables(alloc: Global, strings: Strings, lists: &Lists) -> Result<Rows, CatErr>
    ensures exact { Gives faults.NoMemory (λ rows. rows) result (of_tables (rows_read (tables_of lists.now strings))) }
    ensures sound { IfOk result AreTableRows }
{
    let tables = tables_of(strings, lists);
    Ok(decode(alloc, &tables)?)
}

/// All entries as bundles, in order; None stands for an asset.
fn read_bundles(
    alloc: Global,
    lists: &Lists,
    rows: &Rows,
    keys: &[Items<u32>],
) -> Result<Items<Option<BundleRow>>, CatErr>
    requires few { length rows.now.entries < 2 ^ 31 }
    requires held { keys.now ≡ map (keys_holding rows.now) (range_with_len 0 (length rows.now.entries)) }
    ensures { Gives faults.NoMemory
        (λ bundles. bundles) result (read_each (bundle_read lists.now rows.now) 0 rows.now.entries) }
{
    let mut bundles = Items::new(alloc);
    for (i, entry) in rows.entries.as_slice().iter().enumerate() {
        let bundle = read_bundle(alloc, lists, rows, keys[i].as_slice(), i as u32, entry)?;
        bundles.push(bundle)?;
    }
    Ok(bundles)
}

/// All entries as assets, in order; None stands for a bundle.
fn read_assets(
    alloc: Global,
    lists: &Lists,
    rows: &Rows,
    keys: &[Items<u32>],
    bundles: &[Option<BundleRow>],
) -> Result<Items<Option<PlainAsset>>, CatErr>
    requires few { length rows.now.entries < 2 ^ 31 }
    requires few_bundles { length bundles.now < 2 ^ 31 }
    requires held { keys.now ≡ map (keys_holding rows.now) (range_with_len 0 (length rows.now.entries)) }
    ensures { Gives faults.NoMemory (λ assets. assets) result
        (read_each (asset_read lists.now rows.now (numbers_from 0 bundles.now)) 0 rows.now.entries) }
{
    let bundles = number_bundles(alloc, bundles, rows)?;
    let mut assets = Items::new(alloc);
    for (i, entry) in rows.entries.as_slice().iter().enumerate() {
        let holding = keys[i].as_slice();
        let asset = read_asset(alloc, lists, rows, &bundles, holding, i as u32, entry)?;
        assets.push(asset)?;
    }
    Ok(assets)
}

/// Those that are there.
fn somes<T: Drop>(alloc: Global, items: Items<Option<T>>) -> Result<Vec<T>, NoMemory>
    ensures { IfOk result (λ found. found.items ≡ somes items) }
{
    let mut found = Vec::new(alloc);
    for item in items.into_vec() {
        if let Some(there) = item {
            found.push(there)?;
        }
    }
    Ok(found)
}

/// The rows that the entries of tables stand for.
#[tactic(auto, unfolding(crate::specs::Catalogue::locator_read))]
fn read_locator(alloc: Global, lists: &Lists, rows: &Rows) -> Result<Locator, CatErr>
    requires { AreTableRows rows.now }
    ensures { Gives faults.NoMemory (λ locator. locator) result (locator_read lists.now rows.now) }
{
    let keys = invert(alloc, rows.buckets.as_slice(), rows.entries.len())?;
    let bundles = read_bundles(alloc, lists, rows, &keys)?;
    let assets = read_assets(alloc, lists, rows, &keys, bundles.as_slice())?;
    let bundle_rows = somes(alloc, bundles)?;
    let asset_rows = somes(alloc, assets)?;
    Ok(of_rows(alloc, bundle_rows, asset_rows)?)
}

#[tactic(auto, unfolding(crate::specs::Catalogue::catalogue_read))]
fn read(alloc: Global, bytes: &[u8]) -> Result<Catalogue, CatErr>
    ensures { Gives faults.NoMemory (λ catalogue. catalogue) result (catalogue_read bytes.now) }
{
    let Document {
        lists,
        strings,
        state,
    } = read_document(alloc, bytes)?;
    let rows = read_tables(alloc, strings, &lists)?;
    let locator = read_locator(alloc, &lists, &rows)?;
    Ok(Catalogue { locator, state })
}

/// Reads a catalogue (docs/formats/catalogue.md). Linear in the size of the bytes, of the rows of the tables (`decode` copies
/// each key and extra object, which may overlap or be shared: at worst their number times the table's length; a shared text
/// of options is parsed again for each bundle) and of the rows, but for the ordered maps and sets in which keys and
/// dependencies are looked up.
pub fn read_catalog(alloc: Global, bytes: &[u8]) -> Result<Catalogue, CatErr>
    // Unless memory was refused, the answer is what the bytes are read as: their catalogue or its first fault.
    ensures exact { Gives faults.NoMemory (λ catalogue. catalogue) result (catalogue_read bytes.now) }
    // No fault is want of memory.
    ensures named { catalogue_read bytes.now ≢ Err faults.NoMemory }
{
    read(alloc, bytes)
}
