// What keys lead to. Each key's rows are listed beside the catalogue; no call walks over rows that have none of the keys.
ghost use Rattle.std.specs.Prelude.{◌≡◌, ◌==◌, ◌<◌, ◌^◌, ◌++◌, ◌∷◌, [], ◌&&◌, not, true, false, Bool, Option, List, map, filter, length, slice_get, IfOk, OnOk};
ghost use Rattle.std.specs.List.{list_any, list_all, flat_map};
ghost use Rattle.std.specs.Option.{option_map_or};
ghost use Rattle.addr_locate.specs.Lookups.{AreFound};
ghost use Rattle.addr_locate.specs.Postings.{ListsRows, has_each, is_kind_at, numbers_of_key};
ghost use Rattle.addr_locate.specs.Merge.{is_kind, has_key, is_match, has_none, rows_where, first_filled, merged, deps_of_row, deps_of};
ghost use Rattle.addr_base.specs.declared.ids.BundleNo.{BundleNo};
ghost use Rattle.addr_base.specs.declared.ids.KeyNo.{KeyNo};

use crate::postings::rows_of_key;
use crate::rows::{AssetRow, Kind, Merge};
use addr_base::{BundleNo, Items, KeyNo, NoMemory, RowNo};
use std::alloc::Global;
use std::collections::BTreeSet;

fn is_kind(kind: Kind, row: &AssetRow) -> bool
    ensures { result ≡ is_kind kind row.now }
{
    match kind {
        Kind::Any => true,
        Kind::Known(asked) => row.kind.0 == asked.0,
        Kind::Unknown => false,
    }
}

fn is_among(key: KeyNo, keys: &[KeyNo]) -> bool
    ensures { result ≡ list_any (λ k. k.0 == key.0) keys.now }
{
    keys.iter().any(|k| k.0 == key.0)
}

fn has_key(key: Option<KeyNo>, row: &AssetRow) -> bool
    ensures { result ≡ has_key key row.now }
{
    match key {
        None => false,
        Some(asked) => is_among(asked, row.keys.as_slice()),
    }
}

/// Whether the row has the key and is of the asked kind.
fn is_match(kind: Kind, key: Option<KeyNo>, row: &AssetRow) -> bool
    ensures { result ≡ is_match kind key row.now }
{
    has_key(key, row) && is_kind(kind, row)
}

fn is_kind_at(kind: Kind, rows: &[AssetRow], row: RowNo) -> bool
    ensures { result ≡ is_kind_at kind rows.now row }
{
    match rows.get(row.0 as usize) {
        Some(row) => is_kind(kind, row),
        None => false,
    }
}

/// The rows that have the key and are of the asked kind.
fn matching(
    alloc: Global,
    rows: &[AssetRow],
    postings: &[Items<RowNo>],
    kind: Kind,
    key: Option<KeyNo>,
) -> Result<Items<RowNo>, NoMemory>
    requires { ListsRows rows.now postings.now }
    ensures { IfOk result (λ found. found ≡ rows_where (is_match kind key) rows.now) }
{
    let mut found = Items::new(alloc);
    let listed = rows_of_key(postings, key);
    for row in listed {
        if is_kind_at(kind, rows, *row) {
            found.push(*row)?;
        }
    }
    Ok(found)
}

fn any_is_kind(kind: Kind, rows: &[AssetRow], listed: &[RowNo]) -> bool
    ensures { result ≡ list_any (is_kind_at kind rows.now) listed.now }
{
    listed.iter().any(|row| is_kind_at(kind, rows, *row))
}

/// Whether some row has the key and is of the asked kind: a walk over the key's own rows.
pub(crate) fn has_match(
    rows: &[AssetRow],
    postings: &[Items<RowNo>],
    kind: Kind,
    key: Option<KeyNo>,
) -> bool
    requires { ListsRows rows.now postings.now }
    ensures { result ≡ list_any (is_match kind key) rows.now }
{
    any_is_kind(kind, rows, rows_of_key(postings, key))
}

/// The rows of the first key that has any of the asked kind.
fn matching_first(
    alloc: Global,
    rows: &[AssetRow],
    postings: &[Items<RowNo>],
    kind: Kind,
    keys: &[Option<KeyNo>],
) -> Result<Items<RowNo>, NoMemory>
    requires { ListsRows rows.now postings.now }
    ensures { IfOk result
        (λ found. found ≡ first_filled (map (λ key. rows_where (is_match kind key) rows.now) keys.now)) }
{
    for key in keys {
        let found = matching(alloc, rows, postings, kind, *key)?;
        if !found.is_empty() {
            return Ok(found);
        }
    }
    Ok(Items::new(alloc))
}

/// Appends the numbers of those rows that are of the asked kind.
fn add_numbers(
    numbers: &mut Vec<u32>,
    rows: &[AssetRow],
    kind: Kind,
    listed: &[RowNo],
) -> Result<(), NoMemory>
    ensures { OnOk result
        (numbers.new.items ≡ numbers.old.items ++ map (λ r. r.0) (filter (is_kind_at kind rows.now) listed.now)) }
{
    for row in listed {
        if is_kind_at(kind, rows, *row) {
            numbers.push(row.0)?;
        }
    }
    Ok(())
}

/// The numbers of the rows of each key that are of the asked kind, one key behind the other.
fn numbers_of(
    alloc: Global,
    rows: &[AssetRow],
    postings: &[Items<RowNo>],
    kind: Kind,
    keys: &[Option<KeyNo>],
) -> Result<Vec<u32>, NoMemory>
    ensures { IfOk result (λ numbers. numbers.items ≡ flat_map (numbers_of_key kind rows.now postings.now) keys.now) }
{
    let mut numbers = Vec::new(alloc);
    for key in keys {
        add_numbers(&mut numbers, rows, kind, rows_of_key(postings, *key))?;
    }
    Ok(numbers)
}

fn rows_numbered(alloc: Global, numbers: &[u32]) -> Result<Items<RowNo>, NoMemory>
    ensures { IfOk result (λ rows. rows ≡ map (λ n. record { 0 = n }) numbers.now) }
{
    let mut rows = Items::new(alloc);
    for number in numbers {
        rows.push(RowNo(*number))?;
    }
    Ok(rows)
}

/// The rows that have some key and are of the asked kind: the rows of all keys, put in order, each once.
fn matching_some(
    alloc: Global,
    rows: &[AssetRow],
    postings: &[Items<RowNo>],
    kind: Kind,
    keys: &[Option<KeyNo>],
) -> Result<Items<RowNo>, NoMemory>
    requires { ListsRows rows.now postings.now }
    ensures { IfOk result
        (λ found. found ≡ rows_where (λ row. list_any (λ key. is_match kind key row) keys.now) rows.now) }
{
    let mut numbers = numbers_of(alloc, rows, postings, kind, keys)?;
    numbers.sort_unstable();
    numbers.dedup();
    rows_numbered(alloc, numbers.as_slice())
}

/// A key of the fewest rows: what holds of every key holds of it. `None` where there is no key.
fn rarest(postings: &[Items<RowNo>], keys: &[Option<KeyNo>]) -> Option<KeyNo>
    ensures { (p : Option KeyNo → Bool) → has_none keys.now ≡ false → list_all p keys.now ≡ true → p result ≡ true }
{
    let Some((first, others)) = keys.split_first() else {
        return None;
    };
    let mut rarest = *first;
    for key in others {
        if rows_of_key(postings, *key).len() < rows_of_key(postings, rarest).len() {
            rarest = *key;
        }
    }
    rarest
}

fn has_each(kind: Kind, keys: &[Option<KeyNo>], row: &AssetRow) -> bool
    ensures { result ≡ (not (has_none keys.now) && list_all (λ key. is_match kind key row.now) keys.now) }
{
    !keys.is_empty() && matches_all(kind, keys, row)
}

fn matches_all(kind: Kind, keys: &[Option<KeyNo>], row: &AssetRow) -> bool
    ensures { result ≡ list_all (λ key. is_match kind key row.now) keys.now }
{
    keys.iter().all(|key| is_match(kind, *key, row))
}

fn has_each_at(kind: Kind, keys: &[Option<KeyNo>], rows: &[AssetRow], row: RowNo) -> bool
    ensures { result ≡ option_map_or (has_each kind keys.now) (slice_get rows.now row.0) false }
{
    match rows.get(row.0 as usize) {
        Some(row) => has_each(kind, keys, row),
        None => false,
    }
}

/// The rows that have every key, of some keys, and are of the asked kind: those of a key of the fewest rows that have the others too.
fn matching_each(
    alloc: Global,
    rows: &[AssetRow],
    postings: &[Items<RowNo>],
    kind: Kind,
    keys: &[Option<KeyNo>],
) -> Result<Items<RowNo>, NoMemory>
    requires { ListsRows rows.now postings.now }
    ensures { IfOk result (λ found. found ≡ rows_where (has_each kind keys.now) rows.now) }
{
    let mut found = Items::new(alloc);
    let listed = rows_of_key(postings, rarest(postings, keys));
    for row in listed {
        if has_each_at(kind, keys, rows, *row) {
            found.push(*row)?;
        }
    }
    Ok(found)
}

/// The rows that the keys lead to, in the order of the catalogue.
#[tactic(auto, unfolding(crate::specs::Merge::merged))]
pub(crate) fn merge_rows(
    alloc: Global,
    rows: &[AssetRow],
    postings: &[Items<RowNo>],
    keys: &[Option<KeyNo>],
    mode: Merge,
    kind: Kind,
) -> Result<Items<RowNo>, NoMemory>
    requires { ListsRows rows.now postings.now }
    ensures { IfOk result (λ found. found ≡ merged rows.now keys.now mode kind) }
{
    match mode {
        Merge::UseFirst => matching_first(alloc, rows, postings, kind, keys),
        Merge::Union => matching_some(alloc, rows, postings, kind, keys),
        Merge::Intersection => matching_each(alloc, rows, postings, kind, keys),
    }
}

fn deps_of_row(assets: &[AssetRow], row: RowNo) -> &[BundleNo]
    ensures { result.now ≡ deps_of_row assets.now row }
{
    match assets.get(row.0 as usize) {
        None => &[],
        Some(asset) => asset.deps.as_slice(),
    }
}

/// Appends a bundle that isn't there yet.
fn add_new(
    seen: &mut BTreeSet<u32>,
    found: &mut Items<BundleNo>,
    bundle: BundleNo,
) -> Result<(), NoMemory>
    ensures { (before : List BundleNo) → AreFound before found.old seen.old
        → OnOk result (AreFound (before ++ bundle ∷ []) found.new seen.new) }
{
    if seen.insert(bundle.0)? {
        found.push(bundle)?;
    }
    Ok(())
}

/// Appends those of a row's bundles that aren't there yet.
fn add_deps(
    seen: &mut BTreeSet<u32>,
    found: &mut Items<BundleNo>,
    deps: &[BundleNo],
) -> Result<(), NoMemory>
    ensures { (before : List BundleNo) → AreFound before found.old seen.old
        → OnOk result (AreFound (before ++ deps.now) found.new seen.new) }
{
    for dep in deps {
        add_new(seen, found, *dep)?;
    }
    Ok(())
}

/// The distinct bundles of the rows, in order of first occurrence. A set tells which were found.
pub(crate) fn distinct_deps(
    alloc: Global,
    assets: &[AssetRow],
    rows: &[RowNo],
) -> Result<Items<BundleNo>, NoMemory>
    ensures { IfOk result (λ found. found ≡ deps_of assets.now rows.now) }
{
    let mut seen = BTreeSet::new(alloc);
    let mut found = Items::new(alloc);
    for row in rows {
        add_deps(&mut seen, &mut found, deps_of_row(assets, *row))?;
    }
    Ok(found)
}
