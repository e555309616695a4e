// Why an entry with an old bundle moves: its way is walked where a bad place is reached from its old place, and else not.
ghost use Rattle.std.specs.Prelude.{◌≡◌, ◌<◌, ◌^◌, ◌↔◌, length, IfOk, IsTrue, List, ℕ, Some};
ghost use Rattle.std.specs.List.Sorted.{IsStrictlySortedBy};
ghost use Rattle.std.specs.Ordering.{nat_cmp};
ghost use Rattle.addr_base.specs.declared.ids.Guid.{Guid as GuidOf};
ghost use Rattle.addr_cab.specs.Lookup.{Held};
ghost use Rattle.addr_layout.specs.Members.{IsEntryOf, IsNumbered, IsShared};
ghost use Rattle.addr_locate.specs.Rows.{Rows};
ghost use Rattle.addr_locate.specs.declared.rows.BundleRow.{BundleRow as RowOf};
ghost use Rattle.addr_pack.specs.declared.bundles.Plan.{Plan as PlanOf};
ghost use Rattle.addr_release.specs.Opened.{Opened};
ghost use Rattle.addr_resolve.specs.Items.{AreNamed, ShowsCabs};
ghost use Rattle.addr_state.specs.declared.model.State.{State as StateOf};
ghost use Rattle.addr_update.specs.Moved.{IsOld};
ghost use Rattle.addr_walks.specs.Rows.{AreBelow};
ghost use Rattle.addr_moves.specs.Fates.{comparing};
ghost use Rattle.addr_moves.specs.within.Known.{AreSized, IsKnown, TellsWhy};
ghost use Rattle.addr_moves.specs.within.Walked.{IsClear, IsLedFrom, IsStart, IsWay};

use crate::changing::changed_among;
use crate::entries::{asset_of, guid_of};
use addr_base::{Guid, Items, NoMemory};
use addr_project::Project;
use addr_resolve::{PlaceRow, number_of};
use addr_update::{Why, led_away};
use addr_walks::Search;
use std::alloc::Global;

/// What is known of the state's files and of the project.
#[derive(Drop)]
pub(crate) struct Known {
    /// The places that hold something.
    pub places: Items<PlaceRow>,
    /// The numbers of the places to which their references lead.
    pub rows: Items<Items<u32>>,
    /// The GUIDs that are spoilt there.
    pub spoils: Items<Items<Guid>>,
    /// The least asset to which a reference of theirs is led away.
    pub away: Items<Option<Guid>>,
    /// The numbers of the places from which a bad one is reached.
    pub doubted: Items<u32>,
    /// For each asset the numbers of those to which it refers.
    pub refs: Items<Items<u32>>,
}

/// Room for the walks of one entry after the other.
#[derive(Drop)]
pub(crate) struct Searches {
    pub ways: Search,
    pub reach: Search,
}

/// The numbers of the places of a way.
fn way_of(
    alloc: Global,
    rows: &[Items<u32>],
    ways: &mut Search,
    start: Option<u32>,
) -> Result<Items<u32>, NoMemory>
    requires size { ways.old ≡ length rows.now }
    requires below { AreBelow rows.now (length rows.now) }
    requires within { (n : ℕ) → start ≡ Some n → n < length rows.now }
    ensures size { ways.new ≡ ways.old }
    ensures way { IfOk result (IsWay rows.now start) }
{
    match start {
        None => Ok(Items::new(alloc)),
        Some(n) => {
            let found = ways.reached(alloc, rows, &[n])?;
            Ok(found)
        }
    }
}

/// The least asset to which a reference on a way is led away, as the reason of a move.
fn led_from(
    alloc: Global,
    known: &Known,
    ways: &mut Search,
    start: Option<u32>,
) -> Result<Option<Why>, NoMemory>
    requires size { ways.old ≡ length known.now.rows }
    requires below { AreBelow known.now.rows (length known.now.rows) }
    requires many { length known.now.away ≡ length known.now.rows }
    requires within { (n : ℕ) → start ≡ Some n → n < length known.now.rows }
    ensures size { ways.new ≡ ways.old }
    ensures led { IfOk result (IsLedFrom known.now.rows known.now.away start) }
{
    match start {
        None => Ok(None),
        Some(n) => match led_away(alloc, known.rows.as_slice(), known.away.as_slice(), ways, n)? {
            None => Ok(None),
            Some(guid) => Ok(Some(Why::Led(guid))),
        },
    }
}

/// Why an entry moves, found by walking its way and all that the project reaches from it.
fn walked(
    alloc: Global,
    project: &Project,
    known: &Known,
    searches: &mut Searches,
    asset: u32,
    start: Option<u32>,
) -> Result<Option<Why>, NoMemory>
    requires sized { AreSized project.now known.now }
    requires ways { searches.old.ways ≡ length known.now.rows }
    requires reach { searches.old.reach ≡ length known.now.refs }
    requires asset { asset < length project.now.assets }
    requires start { (n : ℕ) → start ≡ Some n → n < length known.now.places }
    ensures ways { searches.new.ways ≡ searches.old.ways }
    ensures reach { searches.new.reach ≡ searches.old.reach }
    ensures why { IfOk result (λ why. (s : StateOf) (now : PlanOf) (cabs : List Held) (bundles : List RowOf) (was : List Opened)
        (r : Rows) (a : GuidOf) (m : ℕ) → IsKnown s project.now now cabs bundles known.now → IsShared project.now now
        → AreNamed was bundles → ShowsCabs was cabs → IsNumbered project.now asset a → IsOld (comparing s was r project.now now) a m
        → IsStart known.now.places a m start → TellsWhy (comparing s was r project.now now) a why) }
{
    project.kept();
    let reached = searches
        .reach
        .reached(alloc, known.refs.as_slice(), &[asset])?;
    let found = way_of(alloc, known.rows.as_slice(), &mut searches.ways, start)?;
    let changed = changed_among(
        alloc,
        project,
        reached.as_slice(),
        known.places.as_slice(),
        known.spoils.as_slice(),
        found.as_slice(),
    )?;
    match changed {
        Some(guid) => Ok(Some(Why::Changed(guid))),
        None => {
            let led = led_from(alloc, known, &mut searches.ways, start)?;
            Ok(led)
        }
    }
}

/// Whether a place is none of the doubted ones.
fn is_clear(doubted: &[u32], start: Option<u32>) -> bool
    requires { IsStrictlySortedBy nat_cmp doubted.now }
    ensures { IsTrue result → IsClear doubted.now start }
{
    match start {
        None => false,
        Some(n) => match doubted.binary_search(&n) {
            Ok(_) => false,
            Err(_) => true,
        },
    }
}

/// Why an entry with an old bundle moves, if it has changed or is led away.
pub(crate) fn why_of(
    alloc: Global,
    project: &Project,
    known: &Known,
    searches: &mut Searches,
    x: usize,
    m: u32,
) -> Result<Option<Why>, NoMemory>
    requires sized { AreSized project.now known.now }
    requires ways { searches.old.ways ≡ length known.now.rows }
    requires reach { searches.old.reach ≡ length known.now.refs }
    requires entry { x < length project.now.entries }
    ensures ways { searches.new.ways ≡ searches.old.ways }
    ensures reach { searches.new.reach ≡ searches.old.reach }
    ensures why { IfOk result (λ why. (s : StateOf) (now : PlanOf) (cabs : List Held) (bundles : List RowOf) (was : List Opened)
        (r : Rows) (a : GuidOf) → IsKnown s project.now now cabs bundles known.now → IsShared project.now now
        → AreNamed was bundles → ShowsCabs was cabs → IsEntryOf project.now x a → IsOld (comparing s was r project.now now) a m
        → TellsWhy (comparing s was r project.now now) a why) }
{
    project.kept();
    let guid = guid_of(project, x);
    let start = number_of(known.places.as_slice(), &PlaceRow { guid, bundle: m });
    if is_clear(known.doubted.as_slice(), start) {
        return Ok(None);
    }
    let why = walked(alloc, project, known, searches, asset_of(project, x), start)?;
    Ok(why)
}
