// Rows of a key: each is the unfolding from its GUID in its first dependency.
ghost use Rattle.std.specs.Prelude.{◌≡◌, ◌<◌, true, All, List, length, IfOk, Some};
ghost use Rattle.std.specs.List.{slice_get};
ghost use Rattle.addr_layout.specs.Agreement.{place};
ghost use Rattle.addr_locate.specs.Rows.{has_sound_deps, text_at};
ghost use Rattle.addr_locate.specs.declared.rows.AssetRow.{AssetRow};
ghost use Rattle.addr_release.specs.Opened.{Opened};
ghost use Rattle.addr_resolve.specs.Graph.{place_at};
ghost use Rattle.addr_resolve.specs.within.Steps.{AreNumbersOf, FindsFrom, IsGraphOf, IsUsable, NamesLost, ResolvesNamed, ResolvesOne, ResolvesRows};
ghost use Rattle.addr_resolve.specs.Items.{AreNamed, ShowsCabs};
ghost use Rattle.addr_resolve.specs.declared.rows.RowErr.TheVariants as errors;

use crate::graph::PlaceRow;
use crate::graphing::graph_of;
use crate::items::Item;
use crate::placing::number_of;
use crate::unfolding::{Graph, Stop, unfold};
use addr_base::{BundleNo, Guid, Items, NoMemory, RowNo, Text, TypeNo};
use addr_cab::Cab;
use addr_locate::{AssetRow, Locator};
use addr_walks::Search;
use std::alloc::Global;

/// What is shown of an asset row: its GUID, its type, and in GUID order the items that it needs.
#[derive(Drop)]
pub struct Resolved {
    pub guid: Guid,
    pub kind: Text,
    pub items: Items<Item>,
}

/// Why rows aren't resolved.
#[derive(Debug, Drop)]
pub enum RowErr {
    /// The first row that fails: the key of the bundle of its first dependency, and the least GUID that its walk doesn't find.
    Lost { key: Text, guid: Guid },
    NoMemory,
}

impl From<NoMemory> for RowErr {
    ghost from_gives = { λ _ e. e ≡ errors.NoMemory };

    fn from(_: NoMemory) -> Self {
        RowErr::NoMemory
    }
}

/// The unfolding from any place: where nothing is there, its own GUID is lost.
fn unfold_from(
    alloc: Global,
    graph: &Graph,
    search: &mut Search,
    cabs: &[Cab],
    start: &PlaceRow,
) -> Result<Items<Item>, Stop>
    requires { IsUsable graph.now search.old cabs.now }
    ensures size { search.new ≡ search.old }
    ensures finds { (files : List Opened) → IsGraphOf files graph.now cabs.now
        → FindsFrom files (place_at start.now) result }
{
    match number_of(graph.places.as_slice(), start) {
        Some(n) => unfold(alloc, graph, search, cabs, n),
        None => Err(Stop::Lost(start.guid)),
    }
}

/// The bundle that holds an asset.
fn first_dep(row: &AssetRow) -> BundleNo
    requires { 0 < length row.now.deps }
    ensures { slice_get row.now.deps 0 ≡ Some result }
{
    row.deps.as_slice()[0]
}

/// The text of a type.
fn kind_text(locator: &Locator, kind: TypeNo) -> &str
    ensures { result.now ≡ text_at locator.now.kinds kind.0 }
{
    match locator.type_text(kind) {
        Some(text) => text,
        None => "",
    }
}

fn with_kind(
    alloc: Global,
    locator: &Locator,
    row: &AssetRow,
    guid: Guid,
    items: Items<Item>,
) -> Result<Resolved, NoMemory>
    ensures { IfOk result (λ r. (r.guid ≡ guid) × (r.kind ≡ text_at locator.now.kinds row.now.kind.0) × (r.items ≡ items)) }
{
    let kind = Text::copy_of(alloc, kind_text(locator, row.kind))?;
    Ok(Resolved { guid, kind, items })
}

/// Resolves a row, or tells the least GUID that its walk doesn't find.
fn resolve_row(
    alloc: Global,
    locator: &Locator,
    graph: &Graph,
    search: &mut Search,
    cabs: &[Cab],
    row: &AssetRow,
) -> Result<Resolved, Stop>
    requires usable { IsUsable graph.now search.old cabs.now }
    requires deps { 0 < length row.now.deps }
    ensures size { search.new ≡ search.old }
    ensures resolves { (files : List Opened) → IsGraphOf files graph.now cabs.now
        → ResolvesOne locator.now files row.now result }
{
    match Guid::parse(row.id.as_str()) {
        None => Err(Stop::Lost(Guid([0; 16]))),
        Some(guid) => {
            let start = PlaceRow {
                guid,
                bundle: first_dep(row).0,
            };
            let items = unfold_from(alloc, graph, search, cabs, &start)?;
            let row = with_kind(alloc, locator, row, guid, items)?;
            Ok(row)
        }
    }
}

/// Tells the bundle of a row's first dependency.
fn lost(alloc: Global, locator: &Locator, first: BundleNo, guid: Guid) -> RowErr
    requires { first.0 < length locator.now.bundles }
    ensures { NamesLost locator.now.bundles first.0 guid result }
{
    let bundle = &locator.bundles()[first.0 as usize];
    match Text::copy_of(alloc, bundle.key.as_str()) {
        Ok(key) => RowErr::Lost { key, guid },
        Err(_) => RowErr::NoMemory,
    }
}

/// Resolves a row, which is told by its first dependency's bundle where it fails.
fn named_row(
    alloc: Global,
    locator: &Locator,
    graph: &Graph,
    search: &mut Search,
    cabs: &[Cab],
    row: &AssetRow,
) -> Result<Resolved, RowErr>
    requires usable { IsUsable graph.now search.old cabs.now }
    requires deps { has_sound_deps (length locator.now.bundles) row.now.deps ≡ true }
    ensures size { search.new ≡ search.old }
    ensures resolves { (files : List Opened) → IsGraphOf files graph.now cabs.now
        → ResolvesNamed locator.now files row.now result }
{
    match resolve_row(alloc, locator, graph, search, cabs, row) {
        Ok(resolved) => Ok(resolved),
        Err(Stop::Lost(guid)) => Err(lost(alloc, locator, first_dep(row), guid)),
        Err(Stop::NoMemory) => Err(RowErr::NoMemory),
    }
}

/// Resolves rows in their order, up to the first that fails.
fn resolve_each(
    alloc: Global,
    locator: &Locator,
    graph: &Graph,
    search: &mut Search,
    cabs: &[Cab],
    numbers: &[RowNo],
) -> Result<Items<Resolved>, RowErr>
    requires usable { IsUsable graph.now search.old cabs.now }
    requires within { All (λ n. n.0 < length locator.now.assets) numbers.now }
    ensures { (files : List Opened) (rows : List AssetRow) → IsGraphOf files graph.now cabs.now
        → AreNumbersOf locator.now rows numbers.now → ResolvesRows locator.now files rows result }
{
    let assets = locator.assets();
    let mut shown = Items::new(alloc);
    for n in numbers {
        let row = named_row(alloc, locator, graph, search, cabs, &assets[n.0 as usize])?;
        shown.push(row)?;
    }
    Ok(shown)
}

/// Resolves rows over the opened bundles: one graph and one search for all of them.
pub(crate) fn resolve_rows(
    alloc: Global,
    locator: &Locator,
    cabs: &[Cab],
    numbers: &[RowNo],
) -> Result<Items<Resolved>, RowErr>
    requires same { length locator.now.bundles ≡ length cabs.now }
    requires within { All (λ n. n.0 < length locator.now.assets) numbers.now }
    ensures { (files : List Opened) (rows : List AssetRow) → AreNamed files locator.now.bundles → ShowsCabs files cabs.now
        → AreNumbersOf locator.now rows numbers.now → ResolvesRows locator.now files rows result }
{
    let graph = graph_of(alloc, locator.bundles(), cabs)?;
    let mut search = Search::new(alloc, graph.rows.len())?;
    resolve_each(alloc, locator, &graph, &mut search, cabs, numbers)
}
