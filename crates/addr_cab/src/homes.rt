// The bundles outside that references lead to, found in one pass over the references: each once, in the order of a
// table. It takes memory for each bundle and not for each reference.
ghost use Rattle.std.specs.Prelude.{◌≡◌, [], IfOk, OnOk};
ghost use Rattle.std.specs.List.{flat_map};
ghost use Rattle.addr_cab.specs.Outside.{with_home, with_homes, outside_of};
ghost use Rattle.addr_cab.specs.Written.{refs_of};

use crate::object::{ObjectOut, ObjectRow};
use addr_base::{Digest, Home, NoMemory, RefTo};
use std::alloc::Global;
use std::collections::BTreeSet;

fn add_home(found: &mut BTreeSet<Digest>, home: Home) -> Result<(), NoMemory>
    ensures { OnOk result (found.new.keys ≡ with_home found.old.keys home) }
{
    if let Home::Other(name) = home {
        found.insert(name)?;
    }
    Ok(())
}

fn add_homes(found: &mut BTreeSet<Digest>, refs: &[RefTo]) -> Result<(), NoMemory>
    ensures { OnOk result (found.new.keys ≡ with_homes found.old.keys refs.now) }
{
    for reference in refs {
        add_home(found, reference.home)?;
    }
    Ok(())
}

/// The bundles outside that the rows of a table lead to.
pub fn homes_of_rows(alloc: Global, rows: &[ObjectRow]) -> Result<BTreeSet<Digest>, NoMemory>
    ensures { IfOk result (λ found. found.keys ≡ outside_of (flat_map (λ o. o.refs) rows.now)) }
{
    let mut found = BTreeSet::new(alloc);
    for row in rows {
        add_homes(&mut found, row.refs.as_slice())?;
    }
    Ok(found)
}

/// The bundles outside that objects lead to.
pub fn homes_of(alloc: Global, objects: &[ObjectOut]) -> Result<BTreeSet<Digest>, NoMemory>
    ensures { IfOk result (λ found. found.keys ≡ outside_of (refs_of objects.now)) }
{
    let mut found = BTreeSet::new(alloc);
    for object in objects {
        add_homes(&mut found, object.refs.as_slice())?;
    }
    Ok(found)
}
