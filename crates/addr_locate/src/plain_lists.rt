// The two fields of an asset's line that are lists: its dependencies and its keys. Each part is read where it is there, and
// the list is then tested as a whole, since a repeat is seen only against the others; an ordered map finds it.
ghost use Rattle.std.specs.Prelude.{◌≡◌, ℕ, List, MatchOption, IfSome, IfOk};
ghost use Rattle.addr_base.specs.declared.ids.BundleNo.{BundleNo};
ghost use Rattle.addr_locate.specs.PlainFields.{AreNumbers, AreTokens, ReadsDeps, ReadsKeys};
ghost use Rattle.addr_locate.specs.Rows.{are_bundles, has_sound_deps, no_repeats, no_text_twice};

use addr_base::{BundleNo, Items, NoMemory, Text, untoken_bytes};
use addr_fields::{cut_at, is_same, number};
use std::alloc::Global;
use std::collections::BTreeMap;

/// The dependencies that the field spells where there are so many bundles.
pub(crate) fn deps_list(
    alloc: Global,
    field: &[u8],
    count: u32,
) -> Result<Option<Items<BundleNo>>, NoMemory>
    ensures { IfOk result (λ found. ReadsDeps count field.now found) }
{
    match number_list(alloc, field)? {
        Some(deps) => {
            let sound = has_sound_deps(alloc, count, deps.as_slice())?;
            if sound { Ok(Some(deps)) } else { Ok(None) }
        }
        None => Ok(None),
    }
}

/// The keys that the field spells, none twice.
pub(crate) fn keys_list(alloc: Global, field: &[u8]) -> Result<Option<Items<Text>>, NoMemory>
    ensures { IfOk result (λ found. ReadsKeys field.now found) }
{
    if is_same(field, b"%-") {
        return Ok(Some(Items::new(alloc)));
    }
    match token_list(alloc, field)? {
        Some(keys) => {
            let once = no_text_twice(alloc, keys.as_slice())?;
            if once { Ok(Some(keys)) } else { Ok(None) }
        }
        None => Ok(None),
    }
}

fn has_sound_deps(alloc: Global, count: u32, deps: &[BundleNo]) -> Result<bool, NoMemory>
    ensures { IfOk result (λ sound. sound ≡ has_sound_deps count deps.now) }
{
    if deps.is_empty() || !are_bundles(count, deps) {
        return Ok(false);
    }
    let once = no_repeats(alloc, deps)?;
    Ok(once)
}

fn are_bundles(count: u32, deps: &[BundleNo]) -> bool
    ensures { result ≡ are_bundles count deps.now }
{
    deps.iter().all(|b| b.0 < count)
}

fn no_repeats(alloc: Global, deps: &[BundleNo]) -> Result<bool, NoMemory>
    ensures { IfOk result (λ once. once ≡ no_repeats deps.now) }
{
    let mut seen = BTreeMap::new(alloc);
    for dep in deps {
        if seen.insert(dep.0, ())?.is_some() {
            return Ok(false);
        }
    }
    Ok(true)
}

fn no_text_twice(alloc: Global, keys: &[Text]) -> Result<bool, NoMemory>
    ensures { IfOk result (λ once. once ≡ no_text_twice keys.now) }
{
    let mut seen = BTreeMap::new(alloc);
    for key in keys {
        if seen.insert(key.as_str(), ())?.is_some() {
            return Ok(false);
        }
    }
    Ok(true)
}

/// One number or more, with a comma between each two.
fn number_list(alloc: Global, field: &[u8]) -> Result<Option<Items<BundleNo>>, NoMemory>
    ensures found { IfOk result (λ found. MatchOption found
        ((deps : List BundleNo) → AreNumbers field.now deps → ⊥) (λ deps. AreNumbers field.now deps)) }
    ensures only { IfOk result
        (λ found. IfSome found (λ deps. (other : List BundleNo) → AreNumbers field.now other → other ≡ deps)) }
{
    let mut deps = Items::new(alloc);
    let mut rest = field;
    while let Some((digits, after)) = cut_at(rest, b',') {
        match number(digits) {
            Some(n) => deps.push(BundleNo(n))?,
            None => return Ok(None),
        }
        rest = after;
    }
    match number(rest) {
        Some(n) => {
            deps.push(BundleNo(n))?;
            Ok(Some(deps))
        }
        None => Ok(None),
    }
}

/// One token or more, with a comma between each two.
fn token_list(alloc: Global, field: &[u8]) -> Result<Option<Items<Text>>, NoMemory>
    ensures found { IfOk result (λ found. MatchOption found
        ((keys : List (List ℕ)) → AreTokens field.now keys → ⊥) (λ keys. AreTokens field.now keys)) }
    ensures only { IfOk result
        (λ found. IfSome found (λ keys. (other : List (List ℕ)) → AreTokens field.now other → other ≡ keys)) }
{
    let mut keys = Items::new(alloc);
    let mut rest = field;
    while let Some((token, after)) = cut_at(rest, b',') {
        match untoken_bytes(alloc, token)? {
            Some(key) => keys.push(key)?,
            None => return Ok(None),
        }
        rest = after;
    }
    match untoken_bytes(alloc, rest)? {
        Some(key) => {
            keys.push(key)?;
            Ok(Some(keys))
        }
        None => Ok(None),
    }
}
