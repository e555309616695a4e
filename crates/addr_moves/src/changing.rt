// What has changed on an entry's way: the GUIDs of its places, those that are spoilt there, and what the project reaches.
ghost use Rattle.std.specs.Prelude.{◌≡◌, ◌++◌, ◌<◌, ◌↔◌, length, IfOk, OnOk, IsTrue};
ghost use Rattle.std.specs.List.{All, AllZip};
ghost use Rattle.addr_moves.specs.Firsts.{number_under};
ghost use Rattle.addr_moves.specs.within.Changing.{AreSeen, AreSpoilt, AreUnsettled, IsChangedAmong, IsUnsettled};
ghost use Rattle.addr_moves.specs.within.Leasts.{IsLeastWhere};

use crate::firsts::{firsts_of, number_under};
use crate::leasts::least_of;
use crate::looks::add_if;
use addr_base::{Guid, Items, NoMemory};
use addr_project::Project;
use addr_resolve::PlaceRow;
use std::alloc::Global;
use std::collections::BTreeMap;

/// The GUIDs of the places with some numbers.
fn seen_of(alloc: Global, places: &[PlaceRow], found: &[u32]) -> Result<Items<Guid>, NoMemory>
    requires { All (λ n. n < length places.now) found.now }
    ensures { IfOk result (AllZip (AreSeen places.now) found.now) }
{
    let mut seen = Items::new(alloc);
    for n in found {
        seen.push(places[*n as usize].guid)?;
    }
    Ok(seen)
}

fn add_all(guids: &mut Items<Guid>, more: &[Guid]) -> Result<(), NoMemory>
    ensures { OnOk result (guids.new ≡ guids.old ++ more.now) }
{
    for guid in more {
        guids.push(*guid)?;
    }
    Ok(())
}

/// The GUIDs that are spoilt at the places with some numbers.
fn spoilt_of(alloc: Global, spoils: &[Items<Guid>], found: &[u32]) -> Result<Items<Guid>, NoMemory>
    requires { All (λ n. n < length spoils.now) found.now }
    ensures { IfOk result (AreSpoilt spoils.now found.now) }
{
    let mut spoilt = Items::new(alloc);
    for n in found {
        add_all(&mut spoilt, spoils[*n as usize].as_slice())?;
    }
    Ok(spoilt)
}

/// Whether an asset isn't on the way, or is spoilt there.
fn is_unsettled(seen: &BTreeMap<&[u8], u32>, spoilt: &BTreeMap<&[u8], u32>, guid: Guid) -> bool
    ensures { IsTrue result ↔ IsUnsettled (number_under seen.now) (number_under spoilt.now) guid }
{
    if number_under(seen, &guid.0).is_none() {
        return true;
    }
    number_under(spoilt, &guid.0).is_some()
}

/// The unsettled assets among those with some numbers.
fn unsettled_of(
    alloc: Global,
    project: &Project,
    reached: &[u32],
    seen: &BTreeMap<&[u8], u32>,
    spoilt: &BTreeMap<&[u8], u32>,
) -> Result<Items<Guid>, NoMemory>
    requires { All (λ n. n < length project.now.assets) reached.now }
    ensures { IfOk result (AreUnsettled project.now (number_under seen.now) (number_under spoilt.now) reached.now) }
{
    let assets = project.assets();
    let mut guids = Items::new(alloc);
    for n in reached {
        let guid = assets[*n as usize].guid;
        add_if(&mut guids, is_unsettled(seen, spoilt, guid), guid)?;
    }
    Ok(guids)
}

/// The least asset among those with some numbers that no place of the way has, or that is spoilt at one of them.
pub(crate) fn changed_among(
    alloc: Global,
    project: &Project,
    reached: &[u32],
    places: &[PlaceRow],
    spoils: &[Items<Guid>],
    found: &[u32],
) -> Result<Option<Guid>, NoMemory>
    requires reached { All (λ n. n < length project.now.assets) reached.now }
    requires found { All (λ n. n < length places.now) found.now }
    requires many { length spoils.now ≡ length places.now }
    ensures { IfOk result (IsLeastWhere (IsChangedAmong project.now places.now spoils.now reached.now found.now)) }
{
    let seen = seen_of(alloc, places, found)?;
    let spoilt = spoilt_of(alloc, spoils, found)?;
    let seen_at = firsts_of(alloc, seen.as_slice())?;
    let spoilt_at = firsts_of(alloc, spoilt.as_slice())?;
    let unsettled = unsettled_of(alloc, project, reached, &seen_at, &spoilt_at)?;
    Ok(least_of(unsettled.as_slice()))
}
