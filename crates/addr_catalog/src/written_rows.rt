// The rows of tables that are written for a locator's rows: bundles first, then assets.
ghost use Rattle.std.specs.Prelude.{◌≡◌, ◌<◌, ◌^◌, ◌++◌, map, length, pos, IfOk, OnOk};
ghost use Rattle.std.specs.List.{AllByRecursion};
ghost use Rattle.addr_catalog.specs.Written.{table_keys, table_buckets, dep_numbers, dep_key, dep_hash, options_key, bundle_entry, asset_entry, table_entries, table_rows, each_numbered, HasOptions};
ghost use Rattle.addr_catalog.specs.Few.{AreFew};

use crate::inverted::invert;
use crate::key_numbers::KeyNumbers;
use addr_base::{Items, NoMemory, Text};
use addr_catalog_json::{BundleOptions, write_options};
use addr_keys::Key;
use addr_locate::{AssetRow, BundleRow};
use addr_tables::{EntryRow, Rows};
use std::alloc::Global;

/// A Text key for each text, and for each list of dependencies its number from 1.
#[tactic(auto, unfolding(crate::specs::Written::table_keys))]
fn table_keys(alloc: Global, numbers: &KeyNumbers<'_>) -> Result<Items<Key>, NoMemory>
    requires { AreFew numbers.now.locator.now }
    ensures { IfOk result (λ keys. keys ≡ table_keys numbers.now.locator.now) }
{
    let mut keys = Items::new(alloc);
    for text in numbers.texts.as_slice() {
        keys.push(Key::Text(Text::copy_of(alloc, text)?))?;
    }
    for n in 0..numbers.lists.once.len() {
        keys.push(Key::I32((n + 1) as i32))?;
    }
    Ok(keys)
}

/// The rows that have each text, and the bundles of each list.
#[tactic(auto, unfolding(crate::specs::Written::table_buckets))]
fn table_buckets(alloc: Global, numbers: &KeyNumbers<'_>) -> Result<Items<Items<u32>>, NoMemory>
    requires { AreFew numbers.now.locator.now }
    ensures { IfOk result (λ buckets. buckets ≡ table_buckets numbers.now.locator.now) }
{
    numbers.locator.are_rows();
    let mut buckets = invert(alloc, &numbers.rows, numbers.texts.len())?;
    for list in numbers.lists.once.as_slice() {
        buckets.push(Items::copy_of(alloc, list)?)?;
    }
    Ok(Items::from_vec(buckets))
}

/// The options of a bundle, as a key.
fn options_key(alloc: Global, bundle: &BundleRow) -> Result<Key, NoMemory>
    ensures key { IfOk result (λ key. key ≡ options_key bundle.now) }
    ensures again { OnOk result (HasOptions bundle.now) }
{
    let options = BundleOptions {
        digest: bundle.digest,
        name: Text::copy_of(alloc, bundle.name.as_str())?,
        size: bundle.size,
    };
    Ok(Key::Json {
        assembly: Text::copy_of(
            alloc,
            "Unity.ResourceManager, Version=0.0.0.0, Culture=neutral, PublicKeyToken=null",
        )?,
        class: Text::copy_of(
            alloc,
            "UnityEngine.ResourceManagement.ResourceProviders.AssetBundleRequestOptions",
        )?,
        text: write_options(alloc, &options)?,
    })
}

fn bundle_entry(
    alloc: Global,
    numbers: &KeyNumbers<'_>,
    row: u32,
    bundle: &BundleRow,
) -> Result<EntryRow, NoMemory>
    ensures entry { IfOk result (λ entry. entry ≡ bundle_entry numbers.now.locator.now row bundle.now) }
    ensures again { OnOk result (HasOptions bundle.now) }
{
    let options = options_key(alloc, bundle)?;
    Ok(EntryRow {
        internal: row,
        provider: 0,
        dep: None,
        dep_hash: 0,
        extra: Some(options),
        primary: numbers.primary(row),
        kind: 0,
    })
}

/// The number of the key whose bucket holds these bundles.
#[tactic(auto, unfolding(crate::specs::Written::dep_key))]
fn dep_key<'a>(numbers: &KeyNumbers<'a>, deps: &'a [u32]) -> u32
    requires { AreFew numbers.now.locator.now }
    ensures { result ≡ dep_key numbers.now.locator.now deps.now }
{
    match deps {
        [bundle] => numbers.primary(*bundle),
        _ => numbers.texts.len() as u32 + numbers.lists.place(&deps),
    }
}

#[tactic(auto, unfolding(crate::specs::Written::dep_hash))]
fn dep_hash<'a>(numbers: &KeyNumbers<'a>, deps: &'a [u32]) -> u32
    requires { AreFew numbers.now.locator.now }
    ensures hash { result ≡ dep_hash numbers.now.locator.now deps.now }
    ensures small { result < 2 ^ 31 }
{
    match deps {
        [_] => 0,
        _ => numbers.lists.place(&deps) + 1,
    }
}

fn asset_entry<'a>(
    numbers: &KeyNumbers<'a>,
    row: u32,
    asset: &AssetRow,
    deps: &'a [u32],
) -> EntryRow
    requires few { AreFew numbers.now.locator.now }
    requires deps { deps.now ≡ dep_numbers asset.now }
    requires kind { asset.now.kind.0 < 2 ^ 31 }
    ensures { result ≡ asset_entry numbers.now.locator.now row asset.now }
{
    EntryRow {
        internal: row,
        provider: 1,
        dep: Some(dep_key(numbers, deps)),
        dep_hash: dep_hash(numbers, deps) as i32,
        extra: None,
        primary: numbers.primary(row),
        kind: asset.kind.0 + 1,
    }
}

/// Appends the entries of the bundles.
fn push_bundles(
    alloc: Global,
    numbers: &KeyNumbers<'_>,
    entries: &mut Items<EntryRow>,
) -> Result<(), NoMemory>
    requires { AreFew numbers.now.locator.now }
    ensures put { OnOk result (entries.new ≡ entries.old ++ each_numbered
        (bundle_entry numbers.now.locator.now) 0 numbers.now.locator.now.bundles) }
    ensures again { OnOk result (AllByRecursion HasOptions numbers.now.locator.now.bundles) }
{
    for (i, bundle) in numbers.locator.bundles().iter().enumerate() {
        entries.push(bundle_entry(alloc, numbers, i as u32, bundle)?)?;
    }
    Ok(())
}

/// Appends the entries of the assets.
fn push_assets(numbers: &KeyNumbers<'_>, entries: &mut Items<EntryRow>) -> Result<(), NoMemory>
    requires { AreFew numbers.now.locator.now }
    ensures { OnOk result (entries.new ≡ entries.old ++ each_numbered (asset_entry numbers.now.locator.now)
        (length numbers.now.locator.now.bundles) numbers.now.locator.now.assets) }
{
    numbers.locator.are_rows();
    let first = numbers.locator.bundles().len();
    for (i, asset) in numbers.locator.assets().iter().enumerate() {
        let deps = numbers.deps[i].as_slice();
        entries.push(asset_entry(numbers, (first + i) as u32, asset, deps))?;
    }
    Ok(())
}

#[tactic(auto, unfolding(crate::specs::Written::table_entries))]
fn table_entries(alloc: Global, numbers: &KeyNumbers<'_>) -> Result<Items<EntryRow>, NoMemory>
    requires { AreFew numbers.now.locator.now }
    ensures entries { IfOk result (λ entries. entries ≡ table_entries numbers.now.locator.now) }
    ensures again { OnOk result (AllByRecursion HasOptions numbers.now.locator.now.bundles) }
{
    let mut entries = Items::new(alloc);
    push_bundles(alloc, numbers, &mut entries)?;
    push_assets(numbers, &mut entries)?;
    Ok(entries)
}

/// The rows of tables for the locator that the keys are numbered for.
pub fn table_rows(alloc: Global, numbers: &KeyNumbers<'_>) -> Result<Rows, NoMemory>
    requires { AreFew numbers.now.locator.now }
    ensures rows { IfOk result (λ rows. rows ≡ table_rows numbers.now.locator.now) }
    ensures again { OnOk result (AllByRecursion HasOptions numbers.now.locator.now.bundles) }
{
    let keys = table_keys(alloc, numbers)?;
    let buckets = table_buckets(alloc, numbers)?;
    let entries = table_entries(alloc, numbers)?;
    Ok(Rows {
        keys,
        buckets,
        entries,
    })
}
