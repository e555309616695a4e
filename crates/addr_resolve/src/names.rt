// The first bundle with each internal name, found by an ordered map, so that no list of names is searched. Its keys are the names
// as the rows have them, and none is copied.
ghost use Rattle.std.specs.Prelude.{◌≡◌, ◌<◌, ◌^◌, length, IfOk};
ghost use Rattle.addr_base.specs.Ids.{hex_of};
ghost use Rattle.addr_resolve.specs.within.Leading.{AreFirsts, bundle_of, first_of};

use addr_base::{Digest, Home, NoMemory};
use addr_locate::BundleRow;
use std::alloc::Global;
use std::collections::BTreeMap;

/// The first bundle with each internal name.
pub(crate) fn firsts_of<'a>(
    alloc: Global,
    bundles: &'a [BundleRow],
) -> Result<BTreeMap<&'a [u8], u32>, NoMemory>
    requires few { length bundles.now < 2 ^ 32 }
    ensures { IfOk result (λ firsts. AreFirsts bundles.now (first_of firsts)) }
{
    let mut firsts = BTreeMap::new(alloc);
    for (b, row) in bundles.iter().enumerate() {
        let name = row.name.as_bytes();
        if !firsts.contains_key(name) {
            firsts.insert(name, b as u32)?;
        }
    }
    Ok(firsts)
}

/// The bundle to which a home leads from a bundle. Takes no memory.
pub(crate) fn bundle_of(firsts: &BTreeMap<&[u8], u32>, bundle: u32, home: Home) -> Option<u32>
    ensures { result ≡ bundle_of (first_of firsts.now) bundle home }
{
    match home {
        Home::Own => Some(bundle),
        Home::Other(name) => first_of(firsts, &digits_of(name)),
    }
}

fn first_of(firsts: &BTreeMap<&[u8], u32>, name: &[u8]) -> Option<u32>
    ensures { result ≡ first_of firsts.now name.now }
{
    firsts.get(name).copied()
}

fn digits_of(name: Digest) -> [u8; 32]
    ensures { result ≡ hex_of name.0 }
{
    let mut digits = [0u8; 32];
    match hex::encode_to_slice(name.0, &mut digits) {
        Ok(()) => digits,
        Err(_) => unreachable!(),
    }
}
