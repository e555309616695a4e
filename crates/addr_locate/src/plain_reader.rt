// Rows read from their plain form: the heading, then lines of bundles as long as there are any, then lines of assets. The
// first line that is neither is the bad one, since a bundle's line behind an asset's isn't in the form.
ghost use Rattle.std.specs.Prelude.{◌≡◌, ◌<◌, ◌≤◌, ◌+◌, ◌^◌, ◌∷◌, List, ℕ, MatchOption, IfSome, IfOk, length};
ghost use Rattle.addr_fields.specs.Lines.{lines_of};
ghost use Rattle.addr_locate.specs.PlainFields.{ReadsAsset, ReadsBundle};
ghost use Rattle.addr_locate.specs.PlainRows.{ReadsRows, heading};
ghost use Rattle.addr_locate.specs.PlainParts.{BundlesThen, ReadsAssets};

use crate::error::RowsErr;
use crate::locator::Locator;
use crate::numbering::of_rows;
use crate::plain_fields::{digest_then, size_then, token_then};
use crate::plain_lists::{deps_list, keys_list};
use crate::rows::{BundleRow, PlainAsset};
use addr_base::{Items, NoMemory, untoken_bytes};
use addr_fields::{after_word, cut_at, is_same, next_line};
use std::alloc::Global;

/// Reads rows in the plain form (docs/formats/plain-rows.md).
pub fn read_rows(alloc: Global, bytes: &[u8]) -> Result<Locator, RowsErr>
    requires { length bytes.now < 2 ^ 32 }
    ensures { ReadsRows bytes.now result }
{
    let Some(rest) = after_heading(bytes) else {
        return Err(RowsErr::Line(1));
    };
    let (bundles, rest) = read_bundles(alloc, rest)?;
    let count = bundles.len() as u32;
    match read_assets(alloc, rest, count) {
        Ok(assets) => Ok(of_rows(alloc, bundles.into_vec(), assets.into_vec())?),
        Err(e) => Err(e),
    }
}

/// The bytes behind the heading's line.
fn after_heading(bytes: &[u8]) -> Option<&[u8]>
    ensures found { MatchOption result ((more : List (List ℕ)) → lines_of bytes.now ≡ heading ∷ more → ⊥)
        (λ rest. lines_of bytes.now ≡ heading ∷ lines_of rest.now) }
    ensures room { IfSome result (λ rest. length rest.now + 11 ≤ length bytes.now) }
{
    let (line, rest) = next_line(bytes)?;
    if is_same(line, b"addr-rows 1") {
        Some(rest)
    } else {
        None
    }
}

/// The bundles of the first lines, and the bytes behind those.
fn read_bundles(alloc: Global, bytes: &[u8]) -> Result<(Items<BundleRow>, &[u8]), NoMemory>
    ensures { IfOk result (λ read. BundlesThen bytes.now read.0 read.1.now) }
{
    let mut bundles = Items::new(alloc);
    let mut rest = bytes;
    while let Some((line, after)) = next_line(rest) {
        match bundle_row(alloc, line)? {
            Some(bundle) => bundles.push(bundle)?,
            None => return Ok((bundles, rest)),
        }
        rest = after;
    }
    Ok((bundles, rest))
}

/// The assets of all lines, the first of which follows the heading and so many bundles.
fn read_assets(alloc: Global, bytes: &[u8], count: u32) -> Result<Items<PlainAsset>, RowsErr>
    requires room { count + length bytes.now + 11 < 2 ^ 32 }
    ensures { ReadsAssets bytes.now count result }
{
    let mut assets = Items::new(alloc);
    let mut rest = bytes;
    let mut place = count + 2;
    while let Some((line, after)) = next_line(rest) {
        match asset_row(alloc, line, count)? {
            Some(asset) => assets.push(asset)?,
            None => return Err(RowsErr::Line(place)),
        }
        place += 1;
        rest = after;
    }
    Ok(assets)
}

fn bundle_row(alloc: Global, line: &[u8]) -> Result<Option<BundleRow>, NoMemory>
    ensures { IfOk result (λ found. ReadsBundle line.now found) }
{
    let Some(rest) = after_word(line, b"bundle ") else {
        return Ok(None);
    };
    let Some((key, rest)) = token_then(alloc, rest)? else {
        return Ok(None);
    };
    let Some((size, rest)) = size_then(rest) else {
        return Ok(None);
    };
    let Some((digest, rest)) = digest_then(rest) else {
        return Ok(None);
    };
    let Some((name, rest)) = token_then(alloc, rest)? else {
        return Ok(None);
    };
    let Some(id) = untoken_bytes(alloc, rest)? else {
        return Ok(None);
    };
    Ok(Some(BundleRow {
        key,
        size,
        digest,
        name,
        id,
    }))
}

fn asset_row(alloc: Global, line: &[u8], count: u32) -> Result<Option<PlainAsset>, NoMemory>
    ensures { IfOk result (λ found. ReadsAsset count line.now found) }
{
    let Some(rest) = after_word(line, b"asset ") else {
        return Ok(None);
    };
    let Some((id, rest)) = token_then(alloc, rest)? else {
        return Ok(None);
    };
    let Some((kind, rest)) = token_then(alloc, rest)? else {
        return Ok(None);
    };
    let Some((deps, keys)) = cut_at(rest, b' ') else {
        return Ok(None);
    };
    let Some(deps) = deps_list(alloc, deps, count)? else {
        return Ok(None);
    };
    let Some(keys) = keys_list(alloc, keys)? else {
        return Ok(None);
    };
    Ok(Some(PlainAsset {
        id,
        kind,
        deps,
        keys,
    }))
}
