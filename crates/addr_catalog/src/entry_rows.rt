// The row of one entry: a bundle's from its options, an asset's from its dependencies.
ghost use Rattle.std.specs.Prelude.{◌≡◌, IfOk, None, Err};
ghost use Rattle.addr_catalog.specs.Entries.{role_of, keys_holding, options_of, bundle_row, bundle_lists, bundle_read, asset_row, asset_read};
ghost use Rattle.addr_catalog.specs.InternalIds.{whole_id};
ghost use Rattle.addr_reading.specs.Gives.{Gives};
ghost use Rattle.addr_catalog.specs.declared.error.CatErr.TheVariants as faults;
ghost use Rattle.addr_locate.specs.Rows.{text_at};

use crate::error::CatErr;
use crate::internal_ids::whole_id;
use crate::keys::{asset_keys, bundle_key};
use crate::numbering::{Bundles, dependencies, number_at};
use crate::roles::{Role, role_of};
use addr_base::{BundleNo, Items, NoMemory, Text};
use addr_catalog_json::{BundleOptions, Lists, read_options};
use addr_keys::Key;
use addr_locate::{BundleRow, PlainAsset};
use addr_tables::{EntryRow, Rows};
use std::alloc::Global;

/// The text with that number; decoding saw that there is one.
fn text_at(texts: &[Text], number: u32) -> &str
    ensures { result.now ≡ text_at texts.now number }
{
    match texts.get(number as usize) {
        Some(text) => text.as_str(),
        None => "",
    }
}

fn id_of(alloc: Global, lists: &Lists, entry: &EntryRow) -> Result<Text, NoMemory>
    ensures { IfOk result (λ id. id ≡ whole_id lists.now.prefixes (text_at lists.now.internals entry.now.internal)) }
{
    let written = text_at(lists.internals.as_slice(), entry.internal);
    whole_id(alloc, lists.prefixes.as_slice(), written)
}

#[tactic(auto, unfolding(crate::specs::Entries::bundle_row))]
fn bundle_row(
    alloc: Global,
    lists: &Lists,
    entry: &EntryRow,
    key: &str,
    options: BundleOptions,
) -> Result<BundleRow, NoMemory>
    ensures { IfOk result (λ row. row ≡ bundle_row lists.now entry.now key.now options) }
{
    let id = id_of(alloc, lists, entry)?;
    let key = Text::copy_of(alloc, key)?;
    let BundleOptions { digest, name, size } = options;
    Ok(BundleRow {
        key,
        size,
        digest,
        name,
        id,
    })
}

/// The options in the extra data of an entry.
#[tactic(auto, unfolding(crate::specs::Entries::options_of))]
fn options_of(alloc: Global, extra: &Option<Key>) -> Result<Option<BundleOptions>, NoMemory>
    ensures { IfOk result (λ options. options ≡ options_of extra.now) }
{
    match extra {
        Some(Key::Json { text, .. }) => read_options(alloc, text.as_str()),
        _ => Ok(None),
    }
}

/// The bundle row that an entry stands for, and None where it is an asset. `holding` are the numbers of its keys.
#[tactic(auto, unfolding(crate::specs::Entries::bundle_read))]
pub fn read_bundle(
    alloc: Global,
    lists: &Lists,
    rows: &Rows,
    holding: &[u32],
    place: u32,
    entry: &EntryRow,
) -> Result<Option<BundleRow>, CatErr>
    requires { holding.now ≡ keys_holding rows.now place }
    ensures exact { Gives faults.NoMemory (λ row. row) result (bundle_read lists.now rows.now place entry.now) }
    // An unknown provider is told before any memory is asked for.
    ensures provider { role_of (text_at lists.now.providers entry.now.provider) ≡ None
        → result ≡ Err (faults.Provider place) }
{
    match role_of(text_at(lists.providers.as_slice(), entry.provider)) {
        Some(Role::Bundle) => {
            let Some(options) = options_of(alloc, &entry.extra)? else {
                return Err(CatErr::Options { entry: place });
            };
            let key = bundle_key(rows.keys.as_slice(), entry.primary, holding);
            let row = bundle_row(alloc, lists, entry, key, options)?;
            Ok(Some(row))
        }
        Some(Role::Asset) => Ok(None),
        None => Err(CatErr::Provider { entry: place }),
    }
}

#[tactic(auto, unfolding(crate::specs::Entries::asset_row))]
fn asset_row(
    alloc: Global,
    lists: &Lists,
    entry: &EntryRow,
    deps: &[BundleNo],
    keys: Items<Text>,
) -> Result<PlainAsset, NoMemory>
    ensures { IfOk result (λ row. row ≡ asset_row lists.now entry.now deps.now keys) }
{
    let id = id_of(alloc, lists, entry)?;
    let kind = Text::copy_of(alloc, text_at(lists.kinds.as_slice(), entry.kind))?;
    let deps = Items::copy_of(alloc, deps)?;
    Ok(PlainAsset {
        id,
        kind,
        deps,
        keys,
    })
}

/// The asset row that an entry stands for, and None where it is a bundle. `holding` are the numbers of its keys.
#[tactic(auto, unfolding(crate::specs::Entries::asset_read))]
pub fn read_asset(
    alloc: Global,
    lists: &Lists,
    rows: &Rows,
    bundles: &Bundles,
    holding: &[u32],
    place: u32,
    entry: &EntryRow,
) -> Result<Option<PlainAsset>, CatErr>
    requires held { holding.now ≡ keys_holding rows.now place }
    requires listed { bundles.now.lists ≡ bundle_lists rows.now bundles.now.numbers }
    ensures { Gives faults.NoMemory
        (λ row. row) result (asset_read lists.now rows.now bundles.now.numbers place entry.now) }
{
    if number_at(bundles.numbers.as_slice(), place).is_some() {
        return Ok(None);
    }
    let deps = dependencies(bundles.lists.as_slice(), entry.dep);
    if deps.is_empty() {
        return Err(CatErr::Depends { entry: place });
    }
    let keys = asset_keys(alloc, rows.keys.as_slice(), entry.primary, holding)?;
    let row = asset_row(alloc, lists, entry, deps, keys)?;
    Ok(Some(row))
}
