// How many bundles the references of a bundle's members lead to, as a table counts them: by their internal names.
ghost use Rattle.std.specs.Prelude.{◌≡◌, [], length, IfOk, OnOk};
ghost use Rattle.addr_cab.specs.Outside.{with_home};
ghost use Rattle.addr_images.specs.within.Outside.{names_told};

use crate::images::home_told;
use addr_base::{Digest, Home, NoMemory};
use addr_layout::RefHome;
use addr_pack::Plan;
use std::alloc::Global;
use std::collections::BTreeSet;

fn add_home(found: &mut BTreeSet<Digest>, home: Home) -> Result<(), NoMemory>
    ensures { OnOk result (found.new.keys ≡ with_home found.old.keys home) }
{
    if let Home::Other(name) = home {
        found.insert(name)?;
    }
    Ok(())
}

fn names_told(alloc: Global, plan: &Plan, direct: &[u32]) -> Result<BTreeSet<Digest>, NoMemory>
    ensures { IfOk result (λ found. found.keys ≡ names_told plan.now direct.now) }
{
    let mut found = BTreeSet::new(alloc);
    for c in direct {
        add_home(&mut found, home_told(plan, RefHome::Bundle(*c)))?;
    }
    Ok(found)
}

/// How many internal names the bundles with these numbers have.
pub fn outside_count(alloc: Global, plan: &Plan, direct: &[u32]) -> Result<u64, NoMemory>
    ensures { IfOk result (λ n. n ≡ length (names_told plan.now direct.now)) }
{
    let found = names_told(alloc, plan, direct)?;
    Ok(found.len() as u64)
}
