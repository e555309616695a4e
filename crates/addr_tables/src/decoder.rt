// From the parts of tables to their rows: each bucket's key is looked up at the bucket's own offset, then each entry's
// numbers are tested and its extra key is looked up. The order of the tests is the order of the faults.
ghost use Rattle.std.specs.Prelude.{◌≡◌, ◌≢◌, ◌↔◌, ◌++◌, ◌∷◌, [], ℕ, ◌<◌, ◌^◌, List, length, vec_len, IfOk, Ok, Err, map};
ghost use Rattle.addr_tables.specs.declared.rows.Rows.{Rows};
ghost use Rattle.addr_tables.specs.declared.error.TableErr.TheVariants as errors;
ghost use Rattle.addr_tables.specs.Rows.{AreTexts, StandFor};
ghost use Rattle.base64.specs.GeneralPurpose.{IsBytes};
ghost use Rattle.std.specs.List.{list_all};
ghost use Rattle.addr_keys.specs.declared.key.Key.{Key};
ghost use Rattle.addr_tables.specs.Format.{is_within};
ghost use Rattle.addr_reading.specs.Gives.{Gives};
ghost use Rattle.addr_tables.specs.Faults.{bucket_key, bucket_read, keys_read, bad_field, extra_read, row_of, entry_read, entries_read, numbers_in, rows_read};
ghost use Rattle.addr_tables.specs.Seen.{HasForms};

use crate::error::TableErr;
use crate::parts::{Bucket, FIRST_NEGATIVE, Fields, NOTHING, Parts};
use crate::rows::{EntryRow, Rows, Tables};
use crate::sections::parts_of;
use crate::seen::is_new;
use addr_base::{Items, NoMemory};
use addr_keys::{Key, KeyErr, read_key};
use std::alloc::Global;
use std::collections::BTreeSet;

#[tactic(auto, unfolding(crate::specs::Format::is_within))]
fn is_within(bound: u32, n: u32) -> bool
    ensures { result ≡ is_within bound n }
{
    n < bound && n < FIRST_NEGATIVE
}

#[tactic(auto, using(crate::proofs::KeyFacts::writable_at), unfolding(crate::specs::Faults::bucket_key))]
fn bucket_key(
    alloc: Global,
    bytes: &[u8],
    seen: &mut BTreeSet<Vec<u8>>,
    place: u32,
    bucket: &Bucket,
) -> Result<Key, TableErr>
    ensures exact { (before : List Key) → HasForms seen.old before → length before ≡ place → Gives errors.NoMemory
        (λ k. k) result (bucket_key bytes.now before bucket.now) }
    ensures more { (before : List Key) → HasForms seen.old before → IfOk result
        (λ key. HasForms seen.new (before ++ key ∷ [])) }
{
    if bucket.offset >= FIRST_NEGATIVE {
        return Err(TableErr::Key { bucket: place });
    }
    match read_key(alloc, bytes, bucket.offset as usize) {
        Ok((key, _)) => {
            if !is_new(alloc, seen, &key)? {
                return Err(TableErr::Key { bucket: place });
            }
            Ok(key)
        }
        Err(KeyErr::NoMemory) => Err(TableErr::NoMemory),
        Err(_) => Err(TableErr::Key { bucket: place }),
    }
}

#[tactic(auto, unfolding(crate::specs::Faults::bucket_read))]
fn bucket_read(
    alloc: Global,
    parts: &Parts,
    seen: &mut BTreeSet<Vec<u8>>,
    place: u32,
    bucket: &Bucket,
) -> Result<Key, TableErr>
    requires { length parts.now.entries < 2 ^ 32 }
    ensures exact { (before : List Key) → HasForms seen.old before → length before ≡ place → Gives errors.NoMemory
        (λ k. k) result (bucket_read parts.now.keys (length parts.now.entries) before bucket.now) }
    ensures more { (before : List Key) → HasForms seen.old before → IfOk result
        (λ key. HasForms seen.new (before ++ key ∷ [])) }
{
    let key = bucket_key(alloc, parts.keys.as_slice(), seen, place, bucket)?;
    if !are_within(parts.entries.len() as u32, bucket.numbers.as_slice()) {
        return Err(TableErr::Place { bucket: place });
    }
    Ok(key)
}

fn are_within(bound: u32, numbers: &[u32]) -> bool
    ensures { result ≡ list_all (is_within bound) numbers.now }
{
    numbers.iter().all(|n| is_within(bound, *n))
}

fn keys_of(alloc: Global, parts: &Parts) -> Result<Vec<Key>, TableErr>
    requires few { length parts.now.entries < 2 ^ 32 }
    requires fewer { length parts.now.buckets < 2 ^ 32 }
    ensures exact { Gives errors.NoMemory
        (λ v. v.items) result (keys_read parts.now.keys (length parts.now.entries) [] parts.now.buckets) }
    ensures many { IfOk result (λ v. vec_len v ≡ length parts.now.buckets) }
{
    let mut keys = Vec::new(alloc);
    let mut seen = BTreeSet::new(alloc);
    for bucket in parts.buckets.as_slice() {
        let key = bucket_read(alloc, parts, &mut seen, keys.len() as u32, bucket)?;
        keys.push(key)?;
    }
    Ok(keys)
}

/// The first field that names nothing.
#[tactic(auto, unfolding(crate::specs::Faults::bad_field))]
fn bad_field(tables: &Tables, keys: u32, fields: &Fields) -> Option<u8>
    ensures { result ≡ bad_field tables.now.internals tables.now.providers keys tables.now.kinds fields.now }
{
    if !is_within(tables.internals, fields.internal) {
        Some(0)
    } else if !is_within(tables.providers, fields.provider) {
        Some(1)
    } else if fields.dep != NOTHING && !is_within(keys, fields.dep) {
        Some(2)
    } else if fields.extra != NOTHING && fields.extra >= FIRST_NEGATIVE {
        Some(4)
    } else if !is_within(keys, fields.primary) {
        Some(5)
    } else if !is_within(tables.kinds, fields.kind) {
        Some(6)
    } else {
        None
    }
}

#[tactic(auto, unfolding(crate::specs::Faults::extra_read))]
fn extra_of(alloc: Global, extras: &[u8], place: u32, offset: u32) -> Result<Option<Key>, TableErr>
    ensures { Gives errors.NoMemory (λ e. e) result (extra_read extras.now place offset) }
{
    if offset == NOTHING {
        return Ok(None);
    }
    match read_key(alloc, extras, offset as usize) {
        Ok((key, _)) => Ok(Some(key)),
        Err(KeyErr::NoMemory) => Err(TableErr::NoMemory),
        Err(_) => Err(TableErr::Extra { entry: place }),
    }
}

fn row_of(fields: &Fields, extra: Option<Key>) -> EntryRow
    ensures { result ≡ row_of fields.now extra }
{
    let dep = if fields.dep == NOTHING {
        None
    } else {
        Some(fields.dep)
    };
    EntryRow {
        internal: fields.internal,
        provider: fields.provider,
        dep,
        dep_hash: fields.dep_hash.cast_signed(),
        extra,
        primary: fields.primary,
        kind: fields.kind,
    }
}

#[tactic(auto, unfolding(crate::specs::Faults::entry_read))]
fn entry_of(
    alloc: Global,
    tables: &Tables,
    extras: &[u8],
    keys: u32,
    place: u32,
    fields: &Fields,
) -> Result<EntryRow, TableErr>
    ensures { Gives errors.NoMemory (λ r. r) result (entry_read tables.now extras.now keys place fields.now) }
{
    if let Some(field) = bad_field(tables, keys, fields) {
        return Err(TableErr::Index {
            entry: place,
            field,
        });
    }
    let extra = extra_of(alloc, extras, place, fields.extra)?;
    Ok(row_of(fields, extra))
}

fn entries_of(
    alloc: Global,
    tables: &Tables,
    parts: &Parts,
    keys: u32,
) -> Result<Vec<EntryRow>, TableErr>
    requires { length parts.now.entries < 2 ^ 32 }
    ensures { Gives errors.NoMemory
        (λ v. v.items) result (entries_read tables.now parts.now.extras keys [] parts.now.entries) }
{
    let mut rows = Vec::new(alloc);
    for fields in parts.entries.as_slice() {
        let place = rows.len() as u32;
        let row = entry_of(alloc, tables, parts.extras.as_slice(), keys, place, fields)?;
        rows.push(row)?;
    }
    Ok(rows)
}

fn numbers_of(alloc: Global, buckets: Vec<Bucket>) -> Result<Vec<Items<u32>>, NoMemory>
    ensures { IfOk result (λ v. v.items ≡ map numbers_in buckets.items) }
{
    let numbers = buckets
        .into_iter()
        .map(|bucket| bucket_numbers(bucket))
        .collect(alloc)?;
    Ok(numbers)
}

fn bucket_numbers(bucket: Bucket) -> Items<u32>
    ensures { result ≡ bucket.numbers }
{
    let Bucket { offset: _, numbers } = bucket;
    numbers
}

#[tactic(auto, unfolding(crate::specs::Faults::rows_read))]
fn rows_of(alloc: Global, tables: &Tables) -> Result<Rows, TableErr>
    ensures { Gives errors.NoMemory (λ rows. rows) result (rows_read tables.now) }
{
    let parts = parts_of(alloc, tables)?;
    let keys = keys_of(alloc, &parts)?;
    let entries = entries_of(alloc, tables, &parts, keys.len() as u32)?;
    let buckets = numbers_of(alloc, parts.buckets.into_vec())?;
    Ok(Rows {
        keys: Items::from_vec(keys),
        buckets: Items::from_vec(buckets),
        entries: Items::from_vec(entries),
    })
}

/// Nothing is done: that a text is bytes is known of its type.
fn is_bytes(text: &[u8])
    ensures { IsBytes text.now }
{}

fn are_texts(tables: &Tables)
    ensures { AreTexts tables.now }
{
    is_bytes(tables.key.as_bytes());
    is_bytes(tables.bucket.as_bytes());
    is_bytes(tables.entry.as_bytes());
    is_bytes(tables.extra.as_bytes());
}

/// The rows that the tables stand for. Bytes of the key and extra tables at which no offset points are passed over.
pub fn decode(alloc: Global, tables: &Tables) -> Result<Rows, TableErr>
    // The tables stand for what is decoded.
    ensures found { IfOk result (λ rows. StandFor tables.now rows) }
    // What the tables stand for is decoded, unless memory is refused.
    ensures only { (rows : Rows) → StandFor tables.now rows → Gives errors.NoMemory (λ r. r) result (Ok rows) }
    // Which fault it is, where it is one.
    ensures exact { Gives errors.NoMemory (λ rows. rows) result (rows_read tables.now) }
    // So tables stand for one list of rows or have a first fault, and never both; and no fault is want of memory.
    ensures named { rows_read tables.now ≢ Err errors.NoMemory }
    ensures law { (rows : Rows) → (StandFor tables.now rows ↔ (rows_read tables.now ≡ Ok rows)) }
{
    are_texts(tables);
    rows_of(alloc, tables)
}
