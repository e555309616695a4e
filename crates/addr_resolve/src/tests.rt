// Bundles that can't be read: which file counts, and what is named.
use crate::{BundleFault, OpenErr, open_all};
use addr_base::{Depot, Digest, MemDepot, NoMemory, Text};
use addr_locate::BundleRow;
use std::alloc::Global;
use std::test::Fail;

fn row(alloc: Global, key: &str) -> Result<BundleRow, NoMemory> {
    let key = Text::copy_of(alloc, key)?;
    let name = Text::copy_of(alloc, "")?;
    let id = Text::copy_of(alloc, "")?;
    Ok(BundleRow {
        key,
        size: 0,
        digest: Digest([0; 16]),
        name,
        id,
    })
}

fn fault_number(alloc: Global, depot: &mut MemDepot) -> Result<Option<u8>, NoMemory> {
    let row = row(alloc, "k")?;
    match open_all(alloc, depot, "F", &[row]) {
        Err(OpenErr::Bad { key, why }) => Ok(match why {
            _ if key.as_str() != "k" => None,
            BundleFault::Missing => Some(0),
            BundleFault::Fs(fault) => fault.number(),
            BundleFault::Cab(_) | BundleFault::Lost(_) => None,
        }),
        _ => Ok(None),
    }
}

/// The local file, the remote one, and what is told: nothing is there, a file that begins otherwise, and a local file that
/// ends behind its first text beside that remote one.
#[test]
fn local_files_count_first(rt: HostRuntime) -> Result<(), Fail> {
    let other: &[u8] = b"NotUnity";
    let short: &[u8] = b"UnityFS\0";
    for (local, remote, number) in [
        (None, None, 0),
        (None, Some(other), 2),
        (Some(short), Some(other), 1),
    ] {
        let mut depot = MemDepot::new(Vec::new(rt.alloc()), Vec::new(rt.alloc()));
        for (name, file) in [("F/local/k", local), ("F/remote/k", remote)] {
            if let Some(bytes) = file {
                assert!(rt; depot.put(rt.alloc(), name, bytes).is_ok());
            }
        }
        assert_eq!(rt; fault_number(rt.alloc(), &mut depot)?, Some(number));
    }
    Ok(())
}
