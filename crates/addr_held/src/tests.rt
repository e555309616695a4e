// Releases written out by hand: proofs say that each answer is right, and these that it comes with ample memory.
use crate::{HeldErr, Release, open_release, rows_of_state};
use addr_base::{Depot, MemDepot, NoMemory};
use addr_state::read_state;
use addr_unityfs::FsErr;
use addr_update::NotIntact;
use std::alloc::Global;
use std::test::Fail;

/// A catalogue of no rows that names no state.
const CATALOGUE: &str =
    r#"{"m_ProviderIds":[],"m_InternalIds":[],"m_KeyDataString":"AAAAAA==","m_BucketDataString":"AAAAAA==","m_EntryDataString":"AAAAAA==","m_ExtraDataString":"","m_resourceTypes":[]}"#;

const EMPTY: &str = r#"{"bundles":[],"fixed":[],"version":1}"#;

/// A state with one bundle, of the three bytes `abc`, whose digest FIPS 180-4 has as an example.
const STATE: &str =
    r#"{"bundles":[{"digest":"ba7816bf8f01cfea414140de5dae2223","entries":[],"file":"local/G_assets_all_ba7816bf8f01cfea414140de5dae2223.bundle","group":"G","id":"local/x","name":"G_assets_all","objects":[],"size":3}],"fixed":["G"],"version":1}"#;

const FILE: &str = "F/local/G_assets_all_ba7816bf8f01cfea414140de5dae2223.bundle";

fn put(alloc: Global, depot: &mut MemDepot, name: &str, text: &str) -> Result<(), NoMemory> {
    match depot.put(alloc, name, text.as_bytes()) {
        Ok(()) => Ok(()),
        Err(_) => Err(NoMemory),
    }
}

/// A folder with the catalogue and a state.
fn folder(alloc: Global, state: &str) -> Result<MemDepot, NoMemory> {
    let mut depot = MemDepot::new(Vec::new(alloc), Vec::new(alloc));
    put(alloc, &mut depot, "F/remote/catalog_main.json", CATALOGUE)?;
    put(alloc, &mut depot, "F/state_.json", state)?;
    Ok(depot)
}

fn fault(answer: Result<Release, HeldErr>) -> Option<NotIntact> {
    match answer {
        Err(HeldErr::BadRelease { why, .. }) => Some(why),
        _ => None,
    }
}

#[test]
fn a_release_of_nothing_is_opened(rt: HostRuntime) -> Result<(), Fail> {
    let mut depot = folder(rt.alloc(), EMPTY)?;
    assert!(rt; open_release(rt.alloc(), &mut depot, "F").is_ok());
    Ok(())
}

/// A bundle that is missing, and one with the size and digest that the state says, which is no bundle.
#[test]
fn bundles_are_judged(rt: HostRuntime) -> Result<(), Fail> {
    let mut depot = folder(rt.alloc(), STATE)?;
    let missing = fault(open_release(rt.alloc(), &mut depot, "F"));
    assert!(rt; missing == Some(NotIntact::Missing));
    put(rt.alloc(), &mut depot, FILE, "abc")?;
    let short = fault(open_release(rt.alloc(), &mut depot, "F"));
    assert!(rt; short == Some(NotIntact::Fs(FsErr::Short { at: 3 })));
    Ok(())
}

/// The internal name of the bundle, by another program.
#[test]
fn a_row_for_each_bundle(rt: HostRuntime) -> Result<(), Fail> {
    let state = read_state(rt.alloc(), STATE.as_bytes())
        .ok()
        .ok_or("a state")?;
    let rows = rows_of_state(rt.alloc(), &state)?;
    match rows.as_slice() {
        [row] => assert_eq!(rt; row.name.as_str(), "cacb442fe6c1889f5c72986e1e3800b7"),
        _ => assert!(rt; false),
    }
    Ok(())
}
