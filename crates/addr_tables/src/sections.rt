// The tables as numbers: a table's bytes become its numbers first, so that rows are cut from numbers and not from bytes.
// No room is taken on the word of a count: a list grows row by row, and a bucket's numbers are cut from those that are there.
ghost use Rattle.std.specs.Prelude.{◌≡◌, ℕ, ◌*◌, ◌^◌, ◌∷◌, [], ◌<◌, length, take, vec_len, IfOk, IfSome, MatchOption};
ghost use Rattle.addr_reading.specs.Gives.{Gives};
ghost use Rattle.addr_tables.specs.declared.error.TableErr.TheVariants as errors;
ghost use Rattle.addr_tables.specs.Faults.{text_bytes, numbers_of, count_first, bucket_first, buckets_first, buckets_of, fields_of, entries_of, key_count, parts_of};

use crate::error::TableErr;
use crate::parts::{Bucket, FIRST_NEGATIVE, Fields, Parts};
use crate::rows::Tables;
use addr_base::{Items, NoMemory, Text};
use base64::DecodeAllocError;
use base64::engine::general_purpose::STANDARD;
use std::alloc::Global;

#[tactic(auto, unfolding(crate::specs::Faults::text_bytes))]
fn text_bytes(alloc: Global, which: u8, text: &Text) -> Result<Vec<u8>, TableErr>
    ensures { Gives errors.NoMemory (λ v. v.items) result (text_bytes which text.now) }
{
    match STANDARD.decode(alloc, text.as_bytes()) {
        Ok(bytes) => Ok(bytes),
        Err(DecodeAllocError::OutOfMemory) => Err(TableErr::NoMemory),
        Err(_) => Err(TableErr::Base64 { which }),
    }
}

#[tactic(auto, unfolding(crate::specs::Faults::numbers_of))]
fn numbers_of(alloc: Global, bytes: &[u8]) -> Result<Vec<u32>, NoMemory>
    ensures { IfOk result (λ numbers. numbers.items ≡ numbers_of bytes.now) }
{
    let mut numbers = Vec::new(alloc);
    let mut rest = bytes;
    while let [a, b, c, d, after @ ..] = rest {
        numbers.push(u32::from_le_bytes([*a, *b, *c, *d]))?;
        rest = after;
    }
    Ok(numbers)
}

#[tactic(auto, unfolding(crate::specs::Faults::count_first))]
fn count_of(which: u8, numbers: &[u32]) -> Result<(u32, &[u32]), TableErr>
    ensures { Gives errors.NoMemory (λ x. (x.0, x.1.now)) result (count_first which numbers.now) }
{
    match numbers {
        [count, rest @ ..] if *count < FIRST_NEGATIVE => Ok((*count, rest)),
        _ => Err(TableErr::Short { which }),
    }
}

#[tactic(auto, unfolding(crate::specs::Faults::bucket_first))]
fn bucket_of(alloc: Global, numbers: &[u32]) -> Result<(Bucket, &[u32]), TableErr>
    ensures { Gives errors.NoMemory (λ x. (x.0, x.1.now)) result (bucket_first numbers.now) }
{
    let [offset, count, rest @ ..] = numbers else {
        return Err(TableErr::Short { which: 1 });
    };
    if *count >= FIRST_NEGATIVE || *count as usize > rest.len() {
        return Err(TableErr::Short { which: 1 });
    }
    let (numbers, rest) = rest.split_at(*count as usize);
    let bucket = Bucket {
        offset: *offset,
        numbers: Items::copy_of(alloc, numbers)?,
    };
    Ok((bucket, rest))
}

fn buckets_after(
    alloc: Global,
    count: u32,
    numbers: &[u32],
) -> Result<(Vec<Bucket>, &[u32]), TableErr>
    ensures exact { Gives errors.NoMemory (λ x. (x.0.items, x.1.now)) result (buckets_first count [] numbers.now) }
    ensures many { IfOk result (λ x. vec_len x.0 ≡ count) }
{
    let mut buckets = Vec::new(alloc);
    let mut rest = numbers;
    for _i in 0..count {
        let (bucket, after) = bucket_of(alloc, rest)?;
        buckets.push(bucket)?;
        rest = after;
    }
    Ok((buckets, rest))
}

#[tactic(auto, unfolding(crate::specs::Faults::buckets_of))]
fn buckets_of(alloc: Global, bytes: &[u8]) -> Result<Vec<Bucket>, TableErr>
    ensures exact { Gives errors.NoMemory (λ v. v.items) result (buckets_of bytes.now) }
    ensures few { IfOk result (λ v. vec_len v < 2 ^ 32) }
{
    let numbers = numbers_of(alloc, bytes)?;
    let (count, rest) = count_of(1, &numbers)?;
    let (buckets, rest) = buckets_after(alloc, count, rest)?;
    if !rest.is_empty() || bytes.len() % 4 != 0 {
        return Err(TableErr::Trailing { which: 1 });
    }
    Ok(buckets)
}

#[tactic(auto, unfolding(crate::specs::Faults::fields_of))]
fn fields_first(numbers: &[u32]) -> Option<(Fields, &[u32])>
    ensures front { MatchOption result (fields_of numbers.now ≡ [])
        (λ x. fields_of numbers.now ≡ x.0 ∷ fields_of x.1.now) }
    ensures shorter { IfSome result (λ x. length x.1.now < length numbers.now) }
{
    let [
        internal,
        provider,
        dep,
        dep_hash,
        extra,
        primary,
        kind,
        rest @ ..,
    ] = numbers
    else {
        return None;
    };
    let fields = Fields {
        internal: *internal,
        provider: *provider,
        dep: *dep,
        dep_hash: *dep_hash,
        extra: *extra,
        primary: *primary,
        kind: *kind,
    };
    Some((fields, rest))
}

fn fields_of(alloc: Global, numbers: &[u32]) -> Result<Vec<Fields>, NoMemory>
    ensures { IfOk result (λ v. v.items ≡ fields_of numbers.now) }
{
    let mut entries = Vec::new(alloc);
    let mut rest = numbers;
    while let Some((fields, after)) = fields_first(rest) {
        entries.push(fields)?;
        rest = after;
    }
    Ok(entries)
}

#[tactic(auto, using(crate::proofs::FieldLemmas::fields_few), unfolding(crate::specs::Faults::entries_of))]
fn entries_of(alloc: Global, bytes: &[u8]) -> Result<Vec<Fields>, TableErr>
    ensures exact { Gives errors.NoMemory (λ v. v.items) result (entries_of bytes.now) }
    ensures few { IfOk result (λ v. vec_len v < 2 ^ 32) }
{
    let numbers = numbers_of(alloc, bytes)?;
    let (count, rest) = count_of(2, &numbers)?;
    let wanted = 7 * count as usize;
    if rest.len() < wanted {
        return Err(TableErr::Short { which: 2 });
    }
    if rest.len() != wanted || bytes.len() % 4 != 0 {
        return Err(TableErr::Trailing { which: 2 });
    }
    let entries = fields_of(alloc, rest)?;
    Ok(entries)
}

#[tactic(auto, unfolding(crate::specs::Faults::key_count))]
fn key_count(alloc: Global, keys: &[u8]) -> Result<u32, TableErr>
    ensures { Gives errors.NoMemory (λ n. n) result (key_count keys.now) }
{
    let front = keys.get(..4).unwrap_or(keys);
    let numbers = numbers_of(alloc, front)?;
    let (count, _) = count_of(0, &numbers)?;
    Ok(count)
}

#[tactic(auto, unfolding(crate::specs::Faults::parts_of))]
pub fn parts_of(alloc: Global, tables: &Tables) -> Result<Parts, TableErr>
    ensures exact { Gives errors.NoMemory (λ p. p) result (parts_of tables.now) }
    ensures few { IfOk result (λ p. length p.entries < 2 ^ 32) }
    ensures fewer { IfOk result (λ p. length p.buckets < 2 ^ 32) }
{
    let keys = text_bytes(alloc, 0, &tables.key)?;
    let buckets = text_bytes(alloc, 1, &tables.bucket)?;
    let entries = text_bytes(alloc, 2, &tables.entry)?;
    let extras = text_bytes(alloc, 3, &tables.extra)?;
    let count = key_count(alloc, &keys)?;
    let buckets = buckets_of(alloc, &buckets)?;
    let entries = entries_of(alloc, &entries)?;
    if count as usize != buckets.len() {
        return Err(TableErr::Counts {
            keys: count,
            buckets: buckets.len() as u32,
        });
    }
    Ok(Parts {
        keys: Items::from_vec(keys),
        buckets: Items::from_vec(buckets),
        entries: Items::from_vec(entries),
        extras: Items::from_vec(extras),
    })
}
