// The numbers of entries among the bundles, and the bundles that each bucket holds. A bucket may be that of many assets, so
// its bundles are listed once for all.
ghost use Rattle.std.specs.Prelude.{◌≡◌, ◌==◌, ◌<◌, ◌^◌, ◌++◌, ◌∷◌, [], ℕ, List, map, length, IfOk, OnOk, Some, None, if◌then◌else◌};
ghost use Rattle.std.specs.List.{list_any, filter_map};
ghost use Rattle.std.specs.Option.{option_copied};
ghost use Rattle.addr_base.specs.declared.ids.BundleNo.{BundleNo};
ghost use Rattle.addr_catalog.specs.Entries.{numbers_from, number_at, bundles_among, bundle_lists, dependencies};
ghost use Rattle.addr_catalog.specs.TableRows.{HasNumbers};
ghost use Rattle.addr_locate.specs.Merge.{distinct};

use addr_base::{BundleNo, Items, NoMemory};
use addr_locate::BundleRow;
use addr_tables::Rows;
use std::alloc::Global;
use std::collections::BTreeSet;

fn number_if(is_bundle: bool, number: u32) -> Option<BundleNo>
    ensures { result ≡ (if is_bundle then Some (record { 0 = number }) else None) }
{
    if is_bundle {
        Some(BundleNo(number))
    } else {
        None
    }
}

/// The number of each entry among the bundles, if it is one.
#[tactic(auto, unfolding(crate::specs::Entries::numbers_from))]
fn bundle_numbers(
    alloc: Global,
    bundles: &[Option<BundleRow>],
) -> Result<Items<Option<BundleNo>>, NoMemory>
    requires { length bundles.now < 2 ^ 31 }
    ensures { IfOk result (λ numbers. numbers ≡ numbers_from 0 bundles.now) }
{
    let mut numbers = Items::new(alloc);
    let mut count = 0;
    for bundle in bundles {
        numbers.push(number_if(bundle.is_some(), count))?;
        count += u32::from(bundle.is_some());
    }
    Ok(numbers)
}

/// The number of the entry among the bundles, if it is one.
pub fn number_at(numbers: &[Option<BundleNo>], entry: u32) -> Option<BundleNo>
    ensures { result ≡ number_at numbers.now entry }
{
    match numbers.get(entry as usize) {
        Some(number) => *number,
        None => None,
    }
}

/// Appends a bundle that isn't there yet.
fn add_new(
    seen: &mut BTreeSet<u32>,
    found: &mut Items<BundleNo>,
    bundle: BundleNo,
) -> Result<(), NoMemory>
    ensures once { (all : List BundleNo) → HasNumbers seen.old found.old → found.old ≡ distinct all
        → OnOk result (found.new ≡ distinct (all ++ bundle ∷ [])) }
    ensures has { HasNumbers seen.old found.old → OnOk result (HasNumbers seen.new found.new) }
{
    if seen.insert(bundle.0)? {
        found.push(bundle)?;
    }
    Ok(())
}

/// The bundles among some entries, in their order, each once.
#[tactic(auto, unfolding(crate::specs::Entries::bundles_among))]
fn bundles_among(
    alloc: Global,
    numbers: &[Option<BundleNo>],
    entries: &[u32],
) -> Result<Items<BundleNo>, NoMemory>
    ensures { IfOk result (λ found. found ≡ bundles_among numbers.now entries.now) }
{
    let mut seen = BTreeSet::new(alloc);
    let mut found = Items::new(alloc);
    for entry in entries {
        if let Some(bundle) = number_at(numbers, *entry) {
            add_new(&mut seen, &mut found, bundle)?;
        }
    }
    Ok(found)
}

fn bundle_lists(
    alloc: Global,
    numbers: &[Option<BundleNo>],
    buckets: &[Items<u32>],
) -> Result<Items<Items<BundleNo>>, NoMemory>
    ensures { IfOk result (λ lists. lists ≡ map (bundles_among numbers.now) buckets.now) }
{
    let mut lists = Items::new(alloc);
    for bucket in buckets {
        lists.push(bundles_among(alloc, numbers, bucket.as_slice())?)?;
    }
    Ok(lists)
}

/// The bundles by their entries and by the buckets that hold them.
#[derive(Drop)]
pub struct Bundles {
    /// The number of each entry among the bundles, if it is one.
    pub numbers: Items<Option<BundleNo>>,
    /// The bundles of each bucket.
    pub lists: Items<Items<BundleNo>>,
}

pub fn number_bundles(
    alloc: Global,
    bundles: &[Option<BundleRow>],
    rows: &Rows,
) -> Result<Bundles, NoMemory>
    requires { length bundles.now < 2 ^ 31 }
    ensures numbers { IfOk result (λ b. b.numbers ≡ numbers_from 0 bundles.now) }
    ensures lists { IfOk result (λ b. b.lists ≡ bundle_lists rows.now b.numbers) }
{
    let numbers = bundle_numbers(alloc, bundles)?;
    let lists = bundle_lists(alloc, numbers.as_slice(), rows.buckets.as_slice())?;
    Ok(Bundles { numbers, lists })
}

/// The bundles in the bucket of a dependency key.
pub fn dependencies(lists: &[Items<BundleNo>], key: Option<u32>) -> &[BundleNo]
    ensures { result.now ≡ dependencies lists.now key }
{
    let Some(key) = key else {
        return &[];
    };
    match lists.get(key as usize) {
        Some(bundles) => bundles.as_slice(),
        None => &[],
    }
}
