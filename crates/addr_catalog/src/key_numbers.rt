// What the rows of a locator are written with: the texts of all keys, each once, the numbers of each row's keys, and the lists
// of dependencies that need a key of their own.
ghost use Rattle.std.specs.Prelude.{◌≡◌, ◌<◌, ◌^◌, ◌++◌, map, filter, length, IfOk, unwrap_or, slice_get};
ghost use Rattle.addr_catalog.specs.Written.{table_texts, bundle_key_numbers, asset_key_numbers, row_key_numbers, dep_numbers, is_several, dep_lists, primary_of};
ghost use Rattle.addr_catalog.specs.Few.{AreFew};
ghost use Rattle.addr_locate.specs.Rows.{texts_once, place_of, text_at};

use crate::listed::Numbered;
use addr_base::{BundleNo, Items, KeyNo, NoMemory};
use addr_locate::{AssetRow, BundleRow, Locator};
use std::alloc::Global;

/// The texts of the bundles' keys, and then those of the assets' keys in the order of their numbers.
fn key_texts<'a>(alloc: Global, locator: &'a Locator) -> Result<Vec<&'a str>, NoMemory>
    ensures { IfOk result
        (λ texts. map (λ t. t.now) texts.items ≡ map (λ b. b.key) locator.now.bundles ++ locator.now.keys) }
{
    let mut texts = Vec::new(alloc);
    for bundle in locator.bundles() {
        texts.push(bundle.key.as_str())?;
    }
    for key in locator.keys() {
        texts.push(key.as_str())?;
    }
    Ok(texts)
}

/// The text of a key; each key of a row has one.
fn key_text(locator: &Locator, key: KeyNo) -> &str
    ensures { result.now ≡ text_at locator.now.keys key.0 }
{
    locator.key_text(key).unwrap_or("")
}

/// The number of a bundle's key, as a list.
fn bundle_key_numbers<'a>(
    alloc: Global,
    texts: &Numbered<&'a str>,
    bundle: &'a BundleRow,
) -> Result<Items<u32>, NoMemory>
    ensures { IfOk result (λ numbers. numbers ≡ bundle_key_numbers (map (λ t. t.now) texts.now.once.items) bundle.now) }
{
    let mut numbers = Items::new(alloc);
    numbers.push(texts.place(&bundle.key.as_str()))?;
    Ok(numbers)
}

fn asset_key_numbers<'a>(
    alloc: Global,
    texts: &Numbered<&'a str>,
    locator: &'a Locator,
    asset: &AssetRow,
) -> Result<Items<u32>, NoMemory>
    ensures { IfOk result
        (λ numbers. numbers ≡ asset_key_numbers (map (λ t. t.now) texts.now.once.items) locator.now asset.now) }
{
    let mut numbers = Items::new(alloc);
    for key in asset.keys.as_slice() {
        numbers.push(texts.place(&key_text(locator, *key)))?;
    }
    Ok(numbers)
}

/// The numbers of each row's keys.
#[tactic(auto, unfolding(crate::specs::Written::row_key_numbers))]
fn row_key_numbers<'a>(
    alloc: Global,
    texts: &Numbered<&'a str>,
    locator: &'a Locator,
) -> Result<Vec<Items<u32>>, NoMemory>
    requires { map (λ t. t.now) texts.now.once.items ≡ table_texts locator.now }
    ensures { IfOk result (λ rows. rows.items ≡ row_key_numbers locator.now) }
{
    let mut rows = Vec::new(alloc);
    for bundle in locator.bundles() {
        rows.push(bundle_key_numbers(alloc, texts, bundle)?)?;
    }
    for asset in locator.assets() {
        rows.push(asset_key_numbers(alloc, texts, locator, asset)?)?;
    }
    Ok(rows)
}

fn dep_numbers(alloc: Global, asset: &AssetRow) -> Result<Items<u32>, NoMemory>
    ensures { IfOk result (λ numbers. numbers ≡ dep_numbers asset.now) }
{
    let mut numbers = Items::new(alloc);
    for bundle in asset.deps.as_slice() {
        numbers.push(bundle.0)?;
    }
    Ok(numbers)
}

/// The numbers of the bundles that each asset depends on.
pub fn all_deps(alloc: Global, assets: &[AssetRow]) -> Result<Vec<Items<u32>>, NoMemory>
    ensures { IfOk result (λ lists. lists.items ≡ map dep_numbers assets.now) }
{
    let mut lists = Vec::new(alloc);
    for asset in assets {
        lists.push(dep_numbers(alloc, asset)?)?;
    }
    Ok(lists)
}

/// The lists of several numbers.
fn several<'a>(alloc: Global, lists: &'a [Items<u32>]) -> Result<Vec<&'a [u32]>, NoMemory>
    ensures { IfOk result (λ found. map (λ l. l.now) found.items ≡ filter is_several lists.now) }
{
    let mut found = Vec::new(alloc);
    for list in lists {
        if list.len() > 1 {
            found.push(list.as_slice())?;
        }
    }
    Ok(found)
}

/// The keys of a locator's rows by the numbers with which they are written.
#[derive(Drop)]
pub struct KeyNumbers<'a> {
    pub locator: &'a Locator,
    /// The texts of all keys, each once.
    pub texts: Vec<&'a str>,
    /// The numbers of each row's keys.
    pub rows: Vec<Items<u32>>,
    /// The numbers of the bundles that each asset depends on.
    pub deps: &'a [Items<u32>],
    /// Those lists of several numbers that have a key.
    pub lists: Numbered<&'a [u32]>,
    ghost all_texts: { map (λ t. t.now) texts.items ≡ table_texts locator.now },
    ghost all_numbers: { rows.items ≡ row_key_numbers locator.now },
    ghost all_deps: { deps.now ≡ map dep_numbers locator.now.assets },
    ghost all_lists: { map (λ l. l.now) lists.once.items ≡ dep_lists locator.now },
}

impl<'a> KeyNumbers<'a> {
    #[tactic(auto, unfolding(crate::specs::Written::table_texts, crate::specs::Written::dep_lists))]
    pub fn of(
        alloc: Global,
        locator: &'a Locator,
        deps: &'a [Items<u32>],
    ) -> Result<KeyNumbers<'a>, NoMemory>
        requires listed { deps.now ≡ map dep_numbers locator.now.assets }
        requires few { AreFew locator.now }
        ensures { IfOk result (λ numbers. numbers.locator.now ≡ locator.now) }
    {
        let texts = key_texts(alloc, locator)?;
        let texts = Numbered::of(alloc, &texts)?;
        let rows = row_key_numbers(alloc, &texts, locator)?;
        let lists = several(alloc, deps)?;
        let lists = Numbered::of(alloc, &lists)?;
        let Numbered { once, .. } = texts;
        Ok(KeyNumbers {
            locator,
            texts: once,
            rows,
            deps,
            lists,
        })
    }

    /// The number of the primary key of a row.
    #[tactic(auto, unfolding(crate::specs::Written::primary_of))]
    pub fn primary(&self, row: u32) -> u32
        ensures { result ≡ primary_of self.now.locator.now row }
    {
        match self.rows.get(row as usize) {
            Some(numbers) => numbers.get(0).copied().unwrap_or(0),
            None => 0,
        }
    }
}
