// What is seen at the places of the state's files: which GUIDs are spoilt there, and to which a reference is led away.
ghost use Rattle.std.specs.Prelude.{◌≡◌, ◌<◌, ◌^◌, ◌↔◌, length, map, IfOk, OnOk, IsTrue};
ghost use Rattle.std.specs.List.{AllZip};
ghost use Rattle.std.specs.List.Sorted.{IsStrictlySortedBy};
ghost use Rattle.addr_base.specs.Images.{Object};
ghost use Rattle.addr_moves.specs.Firsts.{AreFirsts, number_under};
ghost use Rattle.addr_moves.specs.within.Anew.{name_under};
ghost use Rattle.addr_moves.specs.within.Looks.{AreGuidsWhere, IsAwayOf, IsBuiltBy, IsGapBy, IsLookBy, IsLookOf, IsSpoilsOf};
ghost use Rattle.addr_moves.specs.within.Looks.{IsStrayBy, LedOnBy, StaysAt, home_of, with_guid};
ghost use Rattle.addr_resolve.specs.Items.{AreHeld, Lends};
ghost use Rattle.addr_resolve.specs.Order.{place_cmp};

use crate::digits::digits_of;
use crate::firsts::number_under;
use crate::leasts::least_of;
use addr_base::{Digest, Guid, Home, Image, Items, NoMemory, RefTo, is_same};
use addr_cab::Cab;
use addr_project::Project;
use addr_resolve::{PlaceRow, number_of};
use std::alloc::Global;
use std::collections::BTreeMap;

/// Where references of the state's files may lead.
#[derive(Drop)]
pub(crate) struct Homes<'a> {
    /// The bundles of the state by internal name.
    pub names: BTreeMap<&'a [u8], u32>,
    /// The groups of those that stay.
    pub stays: Items<Option<u32>>,
    /// The assets of the project by GUID.
    pub numbers: BTreeMap<&'a [u8], u32>,
    /// The internal names of the project's own bundles in groups that aren't fixed, by the GUIDs of their entries.
    pub anew: BTreeMap<&'a [u8], Digest>,
}

/// The bundle to which a home leads.
fn leads_to(homes: &Homes, bundle: u32, home: Home) -> Option<u32>
    ensures { result ≡ home_of (number_under homes.now.names) bundle home }
{
    match home {
        Home::Own => Some(bundle),
        Home::Other(name) => number_under(&homes.names, &digits_of(name.0)),
    }
}

fn stays_at(homes: &Homes, to: Option<u32>) -> bool
    ensures { IsTrue result ↔ StaysAt homes.now.stays to }
{
    match to {
        None => false,
        Some(c) => match homes.stays.get(c as usize) {
            None => false,
            Some(group) => group.is_some(),
        },
    }
}

/// The name under a text.
fn name_under(names: &BTreeMap<&[u8], Digest>, text: &[u8]) -> Option<Digest>
    ensures { result ≡ name_under names.now text.now }
{
    names.get(text).copied()
}

/// Whether an asset is an entry of the project's own bundle with that internal name.
fn is_anew(homes: &Homes, guid: Guid, name: Digest) -> bool
    ensures { IsTrue result ↔ (name_under homes.now.anew guid.0 ≡ Some name) }
{
    match name_under(&homes.anew, &guid.0) {
        None => false,
        Some(own) => own == name,
    }
}

fn is_led_on(homes: &Homes, bundle: u32, r: &RefTo) -> bool
    ensures { IsTrue result ↔ LedOnBy homes.now bundle r.now }
{
    match r.home {
        Home::Own => true,
        Home::Other(name) => {
            if stays_at(homes, leads_to(homes, bundle, r.home)) {
                true
            } else {
                is_anew(homes, r.guid, name)
            }
        }
    }
}

fn is_stray(homes: &Homes, bundle: u32, r: &RefTo) -> bool
    ensures { IsTrue result ↔ IsStrayBy homes.now bundle r.now }
{
    !is_led_on(homes, bundle, r)
}

/// Whether a reference leads to a bundle that has no such object.
fn is_gap(homes: &Homes, places: &[PlaceRow], bundle: u32, r: &RefTo) -> bool
    requires few { length places.now < 2 ^ 32 }
    requires rising { IsStrictlySortedBy place_cmp places.now }
    ensures { IsTrue result ↔ IsGapBy homes.now places.now bundle r.now }
{
    match leads_to(homes, bundle, r.home) {
        None => false,
        Some(to) => number_of(
            places,
            &PlaceRow {
                guid: r.guid,
                bundle: to,
            },
        )
        .is_none(),
    }
}

/// Adds a GUID where it is one of those that are wanted.
pub(crate) fn add_if(guids: &mut Items<Guid>, is: bool, guid: Guid) -> Result<(), NoMemory>
    ensures { OnOk result (guids.new ≡ with_guid is guid guids.old) }
{
    if is {
        guids.push(guid)?;
    }
    Ok(())
}

/// The GUIDs of the references that aren't led on.
fn strays_of(
    alloc: Global,
    homes: &Homes,
    bundle: u32,
    refs: &[RefTo],
) -> Result<Items<Guid>, NoMemory>
    ensures { IfOk result (AreGuidsWhere (IsStrayBy homes.now bundle) refs.now) }
{
    let mut strays = Items::new(alloc);
    for r in refs {
        add_if(&mut strays, is_stray(homes, bundle, r), r.guid)?;
    }
    Ok(strays)
}

/// The GUIDs of the references that lead to bundles that have no such object.
fn gaps_of(
    alloc: Global,
    homes: &Homes,
    places: &[PlaceRow],
    bundle: u32,
    refs: &[RefTo],
) -> Result<Items<Guid>, NoMemory>
    requires few { length places.now < 2 ^ 32 }
    requires rising { IsStrictlySortedBy place_cmp places.now }
    ensures { IfOk result (AreGuidsWhere (IsGapBy homes.now places.now bundle) refs.now) }
{
    let mut gaps = Items::new(alloc);
    for r in refs {
        add_if(&mut gaps, is_gap(homes, places, bundle, r), r.guid)?;
    }
    Ok(gaps)
}

/// Whether references are to these assets.
fn are_refs(refs: &[RefTo], guids: &[Guid]) -> bool
    ensures { IsTrue result ↔ (map (λ r. r.guid) refs.now ≡ guids.now) }
{
    if refs.len() != guids.len() {
        return false;
    }
    for (i, r) in refs.iter().enumerate() {
        if !is_same(&r.guid.0, &guids[i].0) {
            return false;
        }
    }
    true
}

/// Whether an object is the project's asset.
fn is_built(project: &Project, homes: &Homes, guid: Guid, bytes: &[u8], refs: &[RefTo]) -> bool
    requires { AreFirsts (map (λ asset. asset.guid.0) project.now.assets) (number_under homes.now.numbers) }
    ensures { IsTrue result ↔ IsBuiltBy project.now guid bytes.now refs.now }
{
    project.kept();
    match number_under(&homes.numbers, &guid.0) {
        None => false,
        Some(n) => {
            let asset = &project.assets()[n as usize];
            if is_same(bytes, asset.bytes.as_slice()) {
                are_refs(refs, asset.refs.as_slice())
            } else {
                false
            }
        }
    }
}

/// What is seen at a place: the GUIDs that are spoilt there, and the least one to which a reference is led away.
#[derive(Drop)]
pub(crate) struct Look {
    pub spoils: Items<Guid>,
    pub away: Option<Guid>,
}

fn look_of(
    alloc: Global,
    project: &Project,
    homes: &Homes,
    places: &[PlaceRow],
    place: PlaceRow,
    bytes: &[u8],
    refs: &[RefTo],
) -> Result<Look, NoMemory>
    requires few { length places.now < 2 ^ 32 }
    requires rising { IsStrictlySortedBy place_cmp places.now }
    requires numbers { AreFirsts (map (λ asset. asset.guid.0) project.now.assets) (number_under homes.now.numbers) }
    ensures { IfOk result (λ l. IsLookBy project.now homes.now places.now place (record { bytes = bytes.now; refs = refs.now })
        l.spoils l.away) }
{
    let strays = strays_of(alloc, homes, place.bundle, refs)?;
    let away = least_of(strays.as_slice());
    let mut spoils = gaps_of(alloc, homes, places, place.bundle, refs)?;
    let is_other = !is_built(project, homes, place.guid, bytes, refs);
    add_if(&mut spoils, is_other, place.guid)?;
    Ok(Look { spoils, away })
}

fn look_at(
    alloc: Global,
    project: &Project,
    cabs: &[Cab],
    homes: &Homes,
    places: &[PlaceRow],
    place: PlaceRow,
) -> Result<Look, NoMemory>
    requires few { length places.now < 2 ^ 32 }
    requires rising { IsStrictlySortedBy place_cmp places.now }
    requires numbers { AreFirsts (map (λ asset. asset.guid.0) project.now.assets) (number_under homes.now.numbers) }
    requires lent { (x : Object) × Lends cabs.now place x }
    ensures { IfOk result (λ l. IsLookOf project.now cabs.now homes.now places.now place l.spoils l.away) }
{
    let cab = &cabs[place.bundle as usize];
    match cab.object(&place.guid) {
        Some(found) => {
            let look = look_of(
                alloc,
                project,
                homes,
                places,
                place,
                found.bytes,
                found.refs,
            )?;
            Ok(look)
        }
        None => unreachable!(),
    }
}

/// The same at all places.
#[derive(Drop)]
pub(crate) struct Looks {
    pub spoils: Items<Items<Guid>>,
    pub away: Items<Option<Guid>>,
}

/// What is seen at each place. Each object is compared once with the asset of its GUID, and each reference is looked up.
pub(crate) fn looks_of(
    alloc: Global,
    project: &Project,
    cabs: &[Cab],
    homes: &Homes,
    places: &[PlaceRow],
) -> Result<Looks, NoMemory>
    requires few { length places.now < 2 ^ 32 }
    requires rising { IsStrictlySortedBy place_cmp places.now }
    requires numbers { AreFirsts (map (λ asset. asset.guid.0) project.now.assets) (number_under homes.now.numbers) }
    requires held { AreHeld cabs.now places.now }
    ensures spoils { IfOk result (λ l. AllZip (IsSpoilsOf project.now cabs.now homes.now places.now) places.now l.spoils) }
    ensures away { IfOk result (λ l. AllZip (IsAwayOf cabs.now homes.now) places.now l.away) }
{
    let mut spoils = Items::new(alloc);
    let mut away = Items::new(alloc);
    for place in places {
        let look = look_at(alloc, project, cabs, homes, places, *place)?;
        spoils.push(look.spoils)?;
        away.push(look.away)?;
    }
    Ok(Looks { spoils, away })
}
