// Rows written in their plain form, line by line. What is written reads back as rows that say the same, since each field has
// one spelling; that the texts are in UTF-8 is known where they are written, and so is said there.
ghost use Rattle.std.specs.Prelude.{◌≡◌, ◌++◌, ◌∷◌, [], IfOk, OnOk, decimal, map, string_bytes};
ghost use Rattle.std.specs.List.{AllByRecursion, flat_map};
ghost use Rattle.std.specs.Str.{IsUtf8};
ghost use Rattle.addr_base.specs.Ids.{Are16Bytes};
ghost use Rattle.addr_base.specs.Tokens.{token_of};
ghost use Rattle.addr_locate.specs.PlainRows.{IsBundleRow, asset_line, bundle_line, deps_field, keys_field};
ghost use Rattle.addr_locate.specs.PlainText.{HasTexts, ReadsAlike, ended, in_order, plain_asset, plain_text, primary_first};
ghost use Rattle.addr_locate.specs.Rows.{text_at};

use crate::locator::Locator;
use crate::rows::{AssetRow, BundleRow};
use addr_base::{BundleNo, Digest, KeyNo, NoMemory, Text, TypeNo, token};
use std::alloc::Global;
use std::fmt::Write;

/// The rows in the plain form (docs/formats/plain-rows.md). Of a row's keys the primary one stands first.
pub fn write_rows(alloc: Global, locator: &Locator) -> Result<Text, NoMemory>
    ensures text { IfOk result (λ text. text ≡ plain_text locator.now) }
    ensures reads { IfOk result (λ text. ReadsAlike text locator.now) }
{
    let mut text = String::new(alloc);
    text.push_str("addr-rows 1\n")?;
    push_bundles(alloc, &mut text, locator.bundles())?;
    push_assets(alloc, &mut text, locator, locator.assets())?;
    locator.are_rows();
    Ok(Text::from_string(text))
}

fn push_bundles(alloc: Global, text: &mut String, bundles: &[BundleRow]) -> Result<(), NoMemory>
    ensures written { OnOk result
        (string_bytes text.new ≡ string_bytes text.old ++ ended (map bundle_line bundles.now)) }
    ensures form { OnOk result (AllByRecursion IsBundleRow bundles.now) }
{
    for bundle in bundles {
        push_bundle(alloc, text, bundle)?;
    }
    Ok(())
}

fn push_bundle(alloc: Global, text: &mut String, bundle: &BundleRow) -> Result<(), NoMemory>
    ensures written { OnOk result
        (string_bytes text.new ≡ string_bytes text.old ++ (bundle_line bundle.now ++ 10 ∷ [])) }
    ensures form { OnOk result (IsBundleRow bundle.now) }
{
    let key = token(alloc, bundle.key.as_str())?;
    let name = token(alloc, bundle.name.as_str())?;
    let id = token(alloc, bundle.id.as_str())?;
    let (key, name, id) = (key.as_str(), name.as_str(), id.as_str());
    let (size, digest) = (bundle.size, bundle.digest);
    sixteen_bytes(digest);
    writeln!(text, "bundle {key} {size} {digest} {name} {id}")?;
    Ok(())
}

fn push_assets(
    alloc: Global,
    text: &mut String,
    locator: &Locator,
    assets: &[AssetRow],
) -> Result<(), NoMemory>
    ensures written { OnOk result (string_bytes text.new ≡ string_bytes text.old ++ ended
        (map asset_line (map (plain_asset locator.now) assets.now))) }
    ensures form { OnOk result (AllByRecursion HasTexts (map (plain_asset locator.now) assets.now)) }
{
    for asset in assets {
        push_asset(alloc, text, locator, asset)?;
    }
    Ok(())
}

fn push_asset(
    alloc: Global,
    text: &mut String,
    locator: &Locator,
    asset: &AssetRow,
) -> Result<(), NoMemory>
    ensures written { OnOk result
        (string_bytes text.new ≡ string_bytes text.old ++
        (asset_line (plain_asset locator.now asset.now) ++ 10 ∷ [])) }
    ensures form { OnOk result (HasTexts (plain_asset locator.now asset.now)) }
{
    let id = token(alloc, asset.id.as_str())?;
    let kind = token(alloc, kind_text(locator, asset.kind))?;
    let (id, kind) = (id.as_str(), kind.as_str());
    write!(text, "asset {id} {kind} ")?;
    push_deps(text, asset.deps.as_slice())?;
    text.push(' ')?;
    push_keys(alloc, text, locator, asset.keys.as_slice())?;
    text.push('\n')?;
    Ok(())
}

fn push_deps(text: &mut String, deps: &[BundleNo]) -> Result<(), NoMemory>
    ensures { OnOk result (string_bytes text.new ≡ string_bytes text.old ++ deps_field deps.now) }
{
    let Some((first, others)) = deps.split_first() else {
        return Ok(());
    };
    let number = first.0;
    write!(text, "{number}")?;
    push_more_deps(text, others)?;
    Ok(())
}

/// Appends dependencies behind others.
fn push_more_deps(text: &mut String, deps: &[BundleNo]) -> Result<(), NoMemory>
    ensures { OnOk result (string_bytes text.new ≡ string_bytes text.old ++ flat_map (λ b. 44 ∷ decimal b.0) deps.now) }
{
    for dep in deps {
        let number = dep.0;
        write!(text, ",{number}")?;
    }
    Ok(())
}

fn push_keys(
    alloc: Global,
    text: &mut String,
    locator: &Locator,
    keys: &[KeyNo],
) -> Result<(), NoMemory>
    ensures written { OnOk result (string_bytes text.new ≡ string_bytes text.old ++ keys_field
        (map (λ k. text_at locator.now.keys k.0) (primary_first keys.now))) }
    ensures form { OnOk result
        (AllByRecursion IsUtf8 (map (λ k. text_at locator.now.keys k.0) (primary_first keys.now))) }
{
    let Some((first, others)) = keys.split_first() else {
        text.push_str("%-")?;
        return Ok(());
    };
    push_key(alloc, text, locator, *first)?;
    let others = in_order(alloc, others)?;
    push_more_keys(alloc, text, locator, &others)?;
    Ok(())
}

/// What the type of a digest says; nothing runs.
fn sixteen_bytes(digest: Digest)
    ensures { Are16Bytes digest.0 }
{}

/// Appends keys behind others.
fn push_more_keys(
    alloc: Global,
    text: &mut String,
    locator: &Locator,
    keys: &[KeyNo],
) -> Result<(), NoMemory>
    ensures written { OnOk result (string_bytes text.new ≡ string_bytes text.old ++ flat_map
        (λ k. 44 ∷ token_of (text_at locator.now.keys k.0)) keys.now) }
    ensures form { OnOk result (AllByRecursion IsUtf8 (map (λ k. text_at locator.now.keys k.0) keys.now)) }
{
    for key in keys {
        text.push(',')?;
        push_key(alloc, text, locator, *key)?;
    }
    Ok(())
}

fn push_key(alloc: Global, text: &mut String, locator: &Locator, key: KeyNo) -> Result<(), NoMemory>
    ensures written { OnOk result
        (string_bytes text.new ≡ string_bytes text.old ++ token_of (text_at locator.now.keys key.0)) }
    ensures form { OnOk result (IsUtf8 (text_at locator.now.keys key.0)) }
{
    let token = token(alloc, key_text(locator, key))?;
    text.push_str(token.as_str())?;
    Ok(())
}

fn key_text(locator: &Locator, key: KeyNo) -> &str
    ensures value { result.now ≡ text_at locator.now.keys key.0 }
    ensures form { IsUtf8 (text_at locator.now.keys key.0) }
{
    match locator.key_text(key) {
        Some(text) => text,
        None => "",
    }
}

fn kind_text(locator: &Locator, kind: TypeNo) -> &str
    ensures value { result.now ≡ text_at locator.now.kinds kind.0 }
    ensures form { IsUtf8 (text_at locator.now.kinds kind.0) }
{
    match locator.type_text(kind) {
        Some(text) => text,
        None => "",
    }
}

fn in_order(alloc: Global, keys: &[KeyNo]) -> Result<Vec<KeyNo>, NoMemory>
    ensures { IfOk result (λ sorted. sorted.items ≡ in_order keys.now) }
{
    let mut sorted = Vec::from_slice(alloc, keys)?;
    sorted.sort_by_key(|k| k.0)?;
    Ok(sorted)
}
