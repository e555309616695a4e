// GUIDs that were seen, in a set.
ghost use Rattle.std.specs.Prelude.{◌≡◌, ◌++◌, [], List, IfOk, OnOk};
ghost use Rattle.addr_base.specs.declared.ids.Guid.{Guid as GuidOf};
ghost use Rattle.addr_state.specs.within.Seen.{HasGuids, has_guid};

use addr_base::{Guid, NoMemory};
use std::alloc::Global;
use std::collections::BTreeSet;

pub fn none_seen(alloc: Global) -> BTreeSet<Guid>
    ensures { HasGuids result [] }
{
    BTreeSet::new(alloc)
}

/// Adds GUIDs, which may be there already.
pub fn add_all(seen: &mut BTreeSet<Guid>, guids: &[Guid]) -> Result<(), NoMemory>
    ensures { (found : List GuidOf) → HasGuids seen.old found → OnOk result (HasGuids seen.new (found ++ guids.now)) }
{
    for guid in guids {
        seen.insert(*guid)?;
    }
    Ok(())
}

pub fn set_of(alloc: Global, guids: &[Guid]) -> Result<BTreeSet<Guid>, NoMemory>
    ensures { IfOk result (λ seen. HasGuids seen guids.now) }
{
    let mut seen = none_seen(alloc);
    add_all(&mut seen, guids)?;
    Ok(seen)
}

pub fn is_seen(seen: &BTreeSet<Guid>, guid: &Guid) -> bool
    ensures { result ≡ has_guid seen.now guid.now }
{
    seen.contains(guid)
}
