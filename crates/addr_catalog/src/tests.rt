// The text of a small catalogue, which was made by another program: proofs say that the text that is written is that of the
// definitions, and what is read of it what they say, and these that they are the format's; small texts with a fault each; and
// that each call succeeds with ample memory.
ghost use Rattle.std.specs.Prelude.{◌≡◌, [], ◌∷◌, IfOk};

use super::*;
use crate::roles::{ASSET_PROVIDER, BUNDLE_PROVIDER};
use addr_base::{BundleNo, Digest, Items, KeyNo, NoMemory, Text};
use addr_locate::{BundleRow, Locator, PlainAsset, of_rows};
use std::alloc::Global;
use std::test::*;

/// The example with the state of 16 zero bytes. A label is a key of both assets, and one asset depends on both bundles.
const WRITTEN: &str =
    r#"{"m_BucketDataString":"BgAAAAQAAAABAAAAAAAAABUAAAABAAAAAQAAACcAAAABAAAAAgAAADAAAAACAAAAAgAAAAMAAAA6AAAAAQAAAAMAAABDAAAAAgAAAAEAAAAAAAAA","m_ContentState":"00000000000000000000000000000000","m_EntryDataString":"BAAAAAAAAAAAAAAA/////wAAAAAAAAAAAAAAAAAAAAABAAAAAAAAAP////8AAAAAVwEAAAEAAAAAAAAAAgAAAAEAAAAAAAAAAAAAAP////8CAAAAAQAAAAMAAAABAAAABQAAAAEAAAD/////BAAAAAIAAAA=","m_ExtraDataString":"B0xVbml0eS5SZXNvdXJjZU1hbmFnZXIsIFZlcnNpb249MC4wLjAuMCwgQ3VsdHVyZT1uZXV0cmFsLCBQdWJsaWNLZXlUb2tlbj1udWxsSlVuaXR5RW5naW5lLlJlc291cmNlTWFuYWdlbWVudC5SZXNvdXJjZVByb3ZpZGVycy5Bc3NldEJ1bmRsZVJlcXVlc3RPcHRpb25zugAAAHsAIgBtAF8AQgB1AG4AZABsAGUATgBhAG0AZQAiADoAIgBhACIALAAiAG0AXwBCAHUAbgBkAGwAZQBTAGkAegBlACIAOgAxADAAMAAsACIAbQBfAEMAcgBjACIAOgAwACwAIgBtAF8ASABhAHMAaAAiADoAIgAwADAAMAAwADAAMAAwADAAMAAwADAAMAAwADAAMAAwADAAMAAwADAAMAAwADAAMAAwADAAMAAwADAAMAAwADAAIgB9AAdMVW5pdHkuUmVzb3VyY2VNYW5hZ2VyLCBWZXJzaW9uPTAuMC4wLjAsIEN1bHR1cmU9bmV1dHJhbCwgUHVibGljS2V5VG9rZW49bnVsbEpVbml0eUVuZ2luZS5SZXNvdXJjZU1hbmFnZW1lbnQuUmVzb3VyY2VQcm92aWRlcnMuQXNzZXRCdW5kbGVSZXF1ZXN0T3B0aW9uc8gAAAB7ACIAbQBfAEIAdQBuAGQAbABlAE4AYQBtAGUAIgA6ACIAYgAiACwAIgBtAF8AQgB1AG4AZABsAGUAUwBpAHoAZQAiADoANAAyADkANAA5ADYANwAyADkANgAsACIAbQBfAEMAcgBjACIAOgAwACwAIgBtAF8ASABhAHMAaAAiADoAIgAwADAAMAAwADAAMAAwADAAMAAwADAAMAAwADAAMAAwADAAMAAwADAAMAAwADAAMAAwADAAMAAwADAAMAAwADAAIgB9AA==","m_InstanceProviderData":{},"m_InternalIdPrefixes":[],"m_InternalIds":["local/first","local/second","x1","x2"],"m_KeyDataString":"BgAAAAAMAAAAZmlyc3QuYnVuZGxlAA0AAABzZWNvbmQuYnVuZGxlAAQAAAB0cmVlAAUAAABncmVlbgAEAAAAYnVzaAQBAAAA","m_LocatorId":"AddressablesMainContentCatalog","m_ProviderIds":["UnityEngine.ResourceManagement.ResourceProviders.AssetBundleProvider","UnityEngine.ResourceManagement.ResourceProviders.BundledAssetProvider"],"m_ResourceProviderData":[],"m_SceneProviderData":{},"m_resourceTypes":[{"m_AssemblyName":"","m_ClassName":"UnityEngine.ResourceManagement.ResourceProviders.IAssetBundleResource"},{"m_AssemblyName":"","m_ClassName":"Mesh"},{"m_AssemblyName":"","m_ClassName":"Text"}]}"#;

/// A bundle whose digest is all zero.
fn bundle(
    alloc: Global,
    key: &str,
    size: u64,
    name: &str,
    id: &str,
) -> Result<BundleRow, NoMemory> {
    Ok(BundleRow {
        key: Text::copy_of(alloc, key)?,
        size,
        digest: Digest([0; 16]),
        name: Text::copy_of(alloc, name)?,
        id: Text::copy_of(alloc, id)?,
    })
}

/// An asset with two keys.
fn asset(
    alloc: Global,
    id: &str,
    kind: &str,
    deps: &[BundleNo],
    first: &str,
    second: &str,
) -> Result<PlainAsset, NoMemory>
    ensures { IfOk result
        (λ row. row
        ≡ record { id = id.now; kind = kind.now; deps = deps.now; keys = first.now ∷ second.now ∷ [] }) }
{
    let mut texts = Items::new(alloc);
    texts.push(Text::copy_of(alloc, first)?)?;
    texts.push(Text::copy_of(alloc, second)?)?;
    Ok(PlainAsset {
        id: Text::copy_of(alloc, id)?,
        kind: Text::copy_of(alloc, kind)?,
        deps: Items::copy_of(alloc, deps)?,
        keys: texts,
    })
}

fn example(alloc: Global) -> Result<Locator, NoMemory> {
    let mut bundles = Vec::new(alloc);
    bundles.push(bundle(alloc, "first.bundle", 100, "a", "local/first")?)?;
    bundles.push(bundle(alloc, "second.bundle", 4294967296, "b", "local/second")?)?;
    let mut assets = Vec::new(alloc);
    assets.push(asset(alloc, "x1", "Mesh", &[BundleNo(0)], "tree", "green")?)?;
    assets.push(asset(
        alloc,
        "x2",
        "Text",
        &[BundleNo(1), BundleNo(0)],
        "bush",
        "green",
    )?)?;
    of_rows(alloc, bundles, assets)
}

fn written(alloc: Global) -> Result<Option<Vec<u8>>, NoMemory> {
    let catalogue = Catalogue {
        locator: example(alloc)?,
        state: Some(Digest([0; 16])),
    };
    if !can_write(alloc, &catalogue.locator)? {
        return Ok(None);
    }
    let text = write_catalog(alloc, &catalogue)?;
    Ok(Some(text))
}

#[test]
fn the_example_is_written(rt: HostRuntime) -> Result<(), Fail> {
    let text = written(rt.alloc()).ok().ok_or("memory")?;
    assert!(rt; text.is_some_and(|text| text.as_slice() == WRITTEN.as_bytes()));
    Ok(())
}

/// Whether the rows are those of the example, by the parts that are told by few words.
fn are_the_rows(locator: &Locator) -> bool {
    let (bundles, assets) = (locator.bundles(), locator.assets());
    if bundles.len() != 2 || assets.len() != 2 {
        return false;
    }
    let deps = assets[1].deps.as_slice() == [BundleNo(1), BundleNo(0)].as_slice();
    let bundle = bundles[1].size == 4294967296 && bundles[1].id.as_str() == "local/second";
    deps && bundle && locator.key_text(KeyNo(2)) == Some("bush")
}

#[test]
fn the_example_is_read(rt: HostRuntime) -> Result<(), Fail> {
    let catalogue = read_catalog(rt.alloc(), WRITTEN.as_bytes())
        .ok()
        .ok_or("catalogue")?;
    assert!(rt; are_the_rows(&catalogue.locator));
    assert!(rt; catalogue.state == Some(Digest([0; 16])));
    Ok(())
}

/// A catalogue of one entry with one key, with neither extra data nor dependencies, around the id of its provider.
const BEFORE: &str = r#"{"m_ProviderIds":[""#;

const BEHIND: &str =
    r#""],"m_InternalIds":["x"],"m_KeyDataString":"AQAAAAAEAAAAdHJlZQ==","m_BucketDataString":"AQAAAAQAAAABAAAAAAAAAA==","m_EntryDataString":"AQAAAAAAAAAAAAAA/////wAAAAD/////AAAAAAAAAAA=","m_ExtraDataString":"","m_resourceTypes":[{"m_ClassName":"Mesh"}]}"#;

/// A catalogue whose tables are empty texts.
const NO_TABLES: &str =
    r#"{"m_ProviderIds":[],"m_InternalIds":[],"m_KeyDataString":"","m_BucketDataString":"","m_EntryDataString":"","m_ExtraDataString":"","m_resourceTypes":[]}"#;

fn with_provider(alloc: Global, provider: &str) -> Result<String, NoMemory> {
    let mut text = String::from_str(alloc, BEFORE)?;
    text.push_str(provider)?;
    text.push_str(BEHIND)?;
    Ok(text)
}

fn fault_with(alloc: Global, provider: &str) -> Result<Option<CatErr>, NoMemory> {
    let text = with_provider(alloc, provider)?;
    Ok(read_catalog(alloc, text.as_bytes()).err())
}

#[test]
fn faults_come_at_their_places(rt: HostRuntime) -> Result<(), Fail> {
    let json = read_catalog(rt.alloc(), b"x").err();
    assert!(rt; matches!(json, Some(CatErr::Json)));
    let member = read_catalog(rt.alloc(), b"{}").err();
    assert!(rt; matches!(member, Some(CatErr::Member { which: 1 })));
    let tables = read_catalog(rt.alloc(), NO_TABLES.as_bytes()).err();
    assert!(rt; tables.is_some_and(|fault| fault.number() == 3));
    let other = fault_with(rt.alloc(), "x").ok().ok_or("memory")?;
    assert!(rt; matches!(other, Some(CatErr::Provider { entry: 0 })));
    let bundle = fault_with(rt.alloc(), BUNDLE_PROVIDER)
        .ok()
        .ok_or("memory")?;
    assert!(rt; matches!(bundle, Some(CatErr::Options { entry: 0 })));
    let asset = fault_with(rt.alloc(), ASSET_PROVIDER).ok().ok_or("memory")?;
    assert!(rt; matches!(asset, Some(CatErr::Depends { entry: 0 })));
    Ok(())
}

/// A bundle and an asset of it that has no key.
fn keyless(alloc: Global) -> Result<Locator, NoMemory> {
    let mut bundles = Vec::new(alloc);
    bundles.push(bundle(alloc, "a", 1, "a", "a")?)?;
    let mut assets = Vec::new(alloc);
    assets.push(PlainAsset {
        id: Text::copy_of(alloc, "x")?,
        kind: Text::copy_of(alloc, "Mesh")?,
        deps: Items::copy_of(alloc, &[BundleNo(0)])?,
        keys: Items::new(alloc),
    })?;
    of_rows(alloc, bundles, assets)
}

fn keyless_can_be_written(alloc: Global) -> Result<bool, NoMemory> {
    let locator = keyless(alloc)?;
    can_write(alloc, &locator)
}

#[test]
fn an_asset_without_a_key_cannot_be_written(rt: HostRuntime) -> Result<(), Fail> {
    let yes = keyless_can_be_written(rt.alloc()).ok().ok_or("memory")?;
    assert!(rt; !yes);
    Ok(())
}
