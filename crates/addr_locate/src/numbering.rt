// Rows with their texts numbered in one walk: a text that is new gets the next number, and a number that was given stays.
// The texts are moved out of the rows, and only a new one is copied once, for the look-up.
ghost use Rattle.std.specs.Prelude.{◌≡◌, ◌<◌, ◌^◌, [], List, ℕ, map, length, IfOk, OnOk, IsTrue};
ghost use Rattle.addr_locate.specs.Names.{with_text, with_texts};
ghost use Rattle.std.specs.List.{list_all};
ghost use Rattle.addr_locate.specs.Rows.{place_of, numbered, keys_of, kinds_of, rows_of, has_sound_deps, no_text_twice};

use crate::locator::Locator;
use crate::names::Names;
use crate::postings::postings_of;
use crate::rows::{AssetRow, BundleRow, PlainAsset};
use addr_base::{Items, KeyNo, NoMemory, Text, TypeNo};
use std::alloc::Global;

/// The locator of these rows. Each asset has dependencies, each a bundle's number, none twice, and no key twice.
pub fn of_rows(
    alloc: Global,
    bundles: Vec<BundleRow>,
    assets: Vec<PlainAsset>,
) -> Result<Locator, NoMemory>
    requires few_bundles { length bundles.items < 2 ^ 32 }
    requires few_assets { length assets.items < 2 ^ 32 }
    requires few_keys { length (keys_of assets.items) < 2 ^ 32 }
    requires deps { IsTrue (list_all (λ a. has_sound_deps (length bundles.items) a.deps) assets.items) }
    requires keys { IsTrue (list_all (λ a. no_text_twice a.keys) assets.items) }
    ensures { IfOk result (λ locator. locator ≡ rows_of bundles.items assets.items) }
{
    let mut keys = Names::new(alloc);
    let mut kinds = Names::new(alloc);
    let assets = number_rows(alloc, &mut keys, &mut kinds, assets)?;
    let postings = postings_of(alloc, assets.as_slice(), keys.texts().len())?;
    let bundles = Items::from_vec(bundles);
    Ok(Locator {
        bundles,
        assets,
        keys,
        kinds,
        postings,
    })
}

fn number_rows(
    alloc: Global,
    keys: &mut Names,
    kinds: &mut Names,
    assets: Vec<PlainAsset>,
) -> Result<Items<AssetRow>, NoMemory>
    requires no_keys { keys.old ≡ [] }
    requires no_kinds { kinds.old ≡ [] }
    ensures keys { OnOk result (keys.new ≡ keys_of assets.items) }
    ensures kinds { OnOk result (kinds.new ≡ kinds_of assets.items) }
    ensures rows { IfOk result (λ rows. rows ≡ map (numbered keys.new kinds.new) assets.items) }
{
    let mut rows = Vec::with_capacity(alloc, assets.len())?;
    for asset in assets {
        rows.push(numbered(alloc, keys, kinds, asset)?)?;
    }
    Ok(Items::from_vec(rows))
}

fn numbered(
    alloc: Global,
    keys: &mut Names,
    kinds: &mut Names,
    asset: PlainAsset,
) -> Result<AssetRow, NoMemory>
    ensures keys { OnOk result (keys.new ≡ with_texts keys.old asset.keys) }
    ensures kinds { OnOk result (kinds.new ≡ with_text kinds.old asset.kind) }
    ensures row { IfOk result (λ row. row ≡ numbered keys.new kinds.new asset) }
{
    let PlainAsset {
        id,
        kind,
        deps,
        keys: texts,
    } = asset;
    let kind = TypeNo(kinds.number(alloc, kind)?);
    let numbers = number_keys(alloc, keys, texts.into_vec())?;
    Ok(AssetRow {
        id,
        kind,
        deps,
        keys: numbers,
    })
}

fn number_keys(alloc: Global, names: &mut Names, texts: Vec<Text>) -> Result<Items<KeyNo>, NoMemory>
    ensures names { OnOk result (names.new ≡ with_texts names.old texts.items) }
    ensures numbers { IfOk result (λ numbers. numbers ≡ map (λ t. record { 0 = place_of names.new t }) texts.items) }
{
    let mut numbers = Vec::with_capacity(alloc, texts.len())?;
    for text in texts {
        numbers.push(KeyNo(names.number(alloc, text)?))?;
    }
    Ok(Items::from_vec(numbers))
}
