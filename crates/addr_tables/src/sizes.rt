// How many bytes tables take, measured over their rows before anything is written. Sums saturate, so that no rows are too many
// or too large to be measured.
ghost use Rattle.std.specs.Prelude.{◌≡◌, ◌^◌, ◌↔◌, nat_lt, length, sum_by, IsTrue};
ghost use Rattle.std.specs.List.{list_all};
ghost use Rattle.addr_tables.specs.Sizes.{key_size, bucket_size, extra_size, saturated, AreSmall};

use crate::rows::{EntryRow, Rows};
use addr_base::Items;
use addr_keys::{Key, key_size};

/// The bound of a table in bytes: a place in a table is a signed number of four bytes.
const TABLE_BOUND: u64 = 1 << 31;

/// The bytes of a count, which each table but the extra one begins with.
const COUNT_SIZE: u64 = 4;

/// Seven numbers of four bytes.
const ENTRY_SIZE: u64 = 28;

fn extra_size(entry: &EntryRow) -> u64
    ensures { result ≡ saturated (extra_size entry.now) }
{
    match &entry.extra {
        Some(key) => key_size(key),
        None => 0,
    }
}

fn all_keys(keys: &[Key]) -> u64
    ensures { result ≡ saturated (sum_by key_size keys.now) }
{
    let mut total: u64 = 0;
    for key in keys {
        total = total.saturating_add(key_size(key));
    }
    total
}

fn all_buckets(buckets: &[Items<u32>]) -> u64
    ensures { result ≡ saturated (sum_by bucket_size buckets.now) }
{
    let mut total: u64 = 0;
    for numbers in buckets {
        let size = (numbers.len() as u64).saturating_mul(4).saturating_add(8);
        total = total.saturating_add(size);
    }
    total
}

fn all_extras(entries: &[EntryRow]) -> u64
    ensures { result ≡ saturated (sum_by extra_size entries.now) }
{
    let mut total: u64 = 0;
    for entry in entries {
        total = total.saturating_add(extra_size(entry));
    }
    total
}

fn are_within(sizes: &[u64]) -> bool
    ensures { result ≡ list_all (λ size. nat_lt size (2 ^ 31)) sizes.now }
{
    sizes.iter().all(|size| *size < TABLE_BOUND)
}

/// Whether each table of the rows stays below its bound. Linear in the rows; takes no memory.
pub fn are_small(rows: &Rows) -> bool
    requires { length rows.now.buckets ≡ length rows.now.keys }
    ensures { IsTrue result ↔ AreSmall rows.now }
{
    let keys = all_keys(rows.keys.as_slice()).saturating_add(COUNT_SIZE);
    let buckets = all_buckets(rows.buckets.as_slice()).saturating_add(COUNT_SIZE);
    let entries = (rows.entries.len() as u64)
        .saturating_mul(ENTRY_SIZE)
        .saturating_add(COUNT_SIZE);
    let extras = all_extras(rows.entries.as_slice());
    are_within(&[keys, buckets, entries, extras])
}
