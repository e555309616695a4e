// From rows to tables: the objects are written one after the other, and the place of each goes into its bucket or entry as it
// is written, so that nothing is written twice or changed behind.
ghost use Rattle.std.specs.Prelude.{◌≡◌, ◌++◌, ◌∷◌, [], ℕ, ◌<◌, ◌+◌, ◌^◌, List, length, vec_len, IfOk, OnOk, Ok, FitsSigned};
ghost use Rattle.std.specs.List.{flat_map, AllByRecursion};
ghost use Rattle.std.specs.Int.{w32, to_le_bytes};
ghost use Rattle.base64.specs.GeneralPurpose.{encode_of};
ghost use Rattle.base64.specs.Engines.{standard};
ghost use Rattle.addr_keys.specs.Format.{key_text, IsForm, IsWritable};
ghost use Rattle.addr_tables.specs.Format.{table_of, bucket_numbers, field_numbers, bucket_table, entry_table};
ghost use Rattle.addr_tables.specs.Faults.{rows_read};
ghost use Rattle.addr_tables.specs.Rows.{StandFor};
ghost use Rattle.addr_tables.specs.Written.{key_bytes, buckets_from, option_text, extra_text, fields_at, fields_from, written, CanEncode, IsExtraWritable, HasForm, IsGoodRow};

use crate::parts::{Fields, NOTHING};
use crate::rows::{EntryRow, Rows, Tables};
use addr_base::{Items, NoMemory, Text};
use addr_keys::{Key, write_key};
use base64::engine::general_purpose::STANDARD;
use std::alloc::Global;

fn put_u32(into: &mut Vec<u8>, n: u32) -> Result<(), NoMemory>
    ensures { OnOk result (into.new.items ≡ into.old.items ++ to_le_bytes w32 n) }
{
    into.extend_from_slice(&n.to_le_bytes())?;
    Ok(())
}

fn put_numbers(into: &mut Vec<u8>, numbers: &[u32]) -> Result<(), NoMemory>
    ensures { OnOk result (into.new.items ≡ into.old.items ++ flat_map (to_le_bytes w32) numbers.now) }
{
    for n in numbers {
        put_u32(into, *n)?;
    }
    Ok(())
}

fn fields_of(at: u32, row: &EntryRow) -> Fields
    ensures value { result ≡ fields_at at row.now }
    ensures fits { FitsSigned w32 row.now.dep_hash }
{
    Fields {
        internal: row.internal,
        provider: row.provider,
        dep: row.dep.unwrap_or(NOTHING),
        dep_hash: row.dep_hash.cast_unsigned(),
        extra: if row.extra.is_some() { at } else { NOTHING },
        primary: row.primary,
        kind: row.kind,
    }
}

#[tactic(auto, unfolding(crate::specs::Format::table_of))]
fn put_fields(into: &mut Vec<u8>, fields: Fields) -> Result<(), NoMemory>
    ensures { OnOk result (into.new.items ≡ into.old.items ++ table_of (field_numbers fields)) }
{
    put_numbers(
        into,
        &[
            fields.internal,
            fields.provider,
            fields.dep,
            fields.dep_hash,
            fields.extra,
            fields.primary,
            fields.kind,
        ],
    )
}

#[tactic(auto, using(crate::proofs::WrittenLemmas::bucket_put), unfolding(crate::specs::Format::table_of))]
fn put_bucket(into: &mut Vec<u8>, offset: u32, numbers: &[u32]) -> Result<(), NoMemory>
    requires { length numbers.now < 2 ^ 32 }
    ensures { OnOk result (into.new.items ≡ into.old.items ++ table_of (offset ∷ length numbers.now ∷ numbers.now)) }
{
    put_u32(into, offset)?;
    put_u32(into, numbers.len() as u32)?;
    put_numbers(into, numbers)
}

fn put_extra(into: &mut Vec<u8>, extra: &Option<Key>) -> Result<(), NoMemory>
    requires { IsExtraWritable extra.now }
    ensures written { OnOk result (into.new.items ≡ into.old.items ++ option_text extra.now) }
    ensures form { OnOk result (HasForm extra.now) }
{
    match extra {
        None => Ok(()),
        Some(key) => write_key(key, into),
    }
}

fn key_tables(
    alloc: Global,
    keys: &[Key],
    buckets: &[Items<u32>],
) -> Result<(Vec<u8>, Vec<u8>), NoMemory>
    requires paired { length buckets.now ≡ length keys.now }
    requires writable { AllByRecursion IsWritable keys.now }
    requires key_small { length (key_bytes keys.now) < 2 ^ 31 }
    requires bucket_small { length (bucket_table (buckets_from 4 keys.now buckets.now)) < 2 ^ 31 }
    ensures keys { IfOk result (λ x. x.0.items ≡ key_bytes keys.now) }
    ensures buckets { IfOk result (λ x. x.1.items ≡ bucket_table (buckets_from 4 keys.now buckets.now)) }
    ensures forms { OnOk result (AllByRecursion (λ k. IsForm k (key_text k)) keys.now) }
{
    let mut key_table = Vec::new(alloc);
    let mut bucket_table = Vec::new(alloc);
    let count = keys.len() as u32;
    put_u32(&mut key_table, count)?;
    put_u32(&mut bucket_table, count)?;
    for i in 0..keys.len() {
        let key = &keys[i];
        put_bucket(
            &mut bucket_table,
            key_table.len() as u32,
            buckets[i].as_slice(),
        )?;
        write_key(key, &mut key_table)?;
    }
    Ok((key_table, bucket_table))
}

fn entry_tables(alloc: Global, entries: &[EntryRow]) -> Result<(Vec<u8>, Vec<u8>), NoMemory>
    requires writable { AllByRecursion (λ row. IsExtraWritable row.extra) entries.now }
    requires entry_small { length (entry_table (fields_from 0 entries.now)) < 2 ^ 31 }
    requires extra_small { length (flat_map extra_text entries.now) < 2 ^ 31 }
    ensures rows { IfOk result (λ x. x.0.items ≡ entry_table (fields_from 0 entries.now)) }
    ensures extras { IfOk result (λ x. x.1.items ≡ flat_map extra_text entries.now) }
    ensures good { OnOk result (AllByRecursion IsGoodRow entries.now) }
{
    let mut entry_table = Vec::new(alloc);
    let mut extra_table = Vec::new(alloc);
    put_u32(&mut entry_table, entries.len() as u32)?;
    for i in 0..entries.len() {
        let row = &entries[i];
        let fields = fields_of(extra_table.len() as u32, row);
        put_fields(&mut entry_table, fields)?;
        put_extra(&mut extra_table, &row.extra)?;
    }
    Ok((entry_table, extra_table))
}

fn text_of(alloc: Global, bytes: &[u8]) -> Result<Text, NoMemory>
    ensures { IfOk result (λ text. text ≡ encode_of standard bytes.now) }
{
    let text = STANDARD.encode(alloc, bytes)?;
    Ok(Text::from_string(text))
}

#[tactic(auto, unfolding(crate::specs::Written::written))]
fn tables_of(
    alloc: Global,
    rows: &Rows,
    internals: u32,
    providers: u32,
    kinds: u32,
) -> Result<Tables, NoMemory>
    requires { CanEncode rows.now internals providers kinds }
    ensures written { IfOk result (λ tables. tables ≡ written rows.now internals providers kinds) }
    ensures forms { OnOk result (AllByRecursion (λ k. IsForm k (key_text k)) rows.now.keys) }
    ensures good { OnOk result (AllByRecursion IsGoodRow rows.now.entries) }
{
    let (keys, buckets) = key_tables(alloc, rows.keys.as_slice(), rows.buckets.as_slice())?;
    let (entries, extras) = entry_tables(alloc, rows.entries.as_slice())?;
    Ok(Tables {
        key: text_of(alloc, &keys)?,
        bucket: text_of(alloc, &buckets)?,
        entry: text_of(alloc, &entries)?,
        extra: text_of(alloc, &extras)?,
        internals,
        providers,
        kinds,
    })
}

/// The tables of the rows: keys in order without gaps, and an extra object for each entry that has one, in order.
pub fn encode(
    alloc: Global,
    rows: &Rows,
    internals: u32,
    providers: u32,
    kinds: u32,
) -> Result<Tables, NoMemory>
    requires { CanEncode rows.now internals providers kinds }
    // The answered tables are the one written form of the rows.
    ensures written { IfOk result (λ tables. tables ≡ written rows.now internals providers kinds) }
    // The tables stand for the rows.
    ensures stand { IfOk result (λ tables. StandFor tables rows.now) }
    // So decoding gives back the rows that were encoded.
    ensures again { IfOk result (λ tables. rows_read tables ≡ Ok rows.now) }
{
    tables_of(alloc, rows, internals, providers, kinds)
}
