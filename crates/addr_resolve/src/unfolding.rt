// The unfolding from one place: one search, the least GUID that is missed, and one item for each GUID.
ghost use Rattle.std.specs.Prelude.{◌≡◌, ◌<◌, length, map, IfOk, IfErr, List, ℕ, Option, Some};
ghost use Rattle.std.specs.List.{AllZip, Contains, slice_get};
ghost use Rattle.addr_base.specs.Images.{Object};
ghost use Rattle.addr_layout.specs.Agreement.{Place};
ghost use Rattle.addr_release.specs.Opened.{Opened, Holds, IsUnfolding};
ghost use Rattle.addr_resolve.specs.Graph.{AreInOrder, IsGraph, ShowsNumber, place_at};
ghost use Rattle.addr_resolve.specs.Items.{AreHeld, HoldOne, ShowsCabs};
ghost use Rattle.addr_resolve.specs.Lost.{IsFirstLost};
ghost use Rattle.addr_resolve.specs.declared.graph.PlaceRow.{PlaceRow};
ghost use Rattle.addr_walks.specs.Rows.{AreBelow};
ghost use Rattle.addr_resolve.specs.Stops.{StopsAt};

use crate::graph::PlaceRow;
use crate::items::{Item, items_of};
use crate::losing::least_lost;
use crate::picking::picks_of;
use addr_base::{Guid, Items, NoMemory};
use addr_cab::Cab;
use addr_walks::Search;
use std::alloc::Global;

/// Places, where their references lead, and what they miss.
#[derive(Drop)]
pub struct Graph {
    pub places: Items<PlaceRow>,
    pub rows: Items<Items<u32>>,
    pub lost: Items<Option<Guid>>,
}

/// Why there is no unfolding.
#[derive(Clone, Copy, Debug)]
pub enum Stop {
    Lost(Guid),
    NoMemory,
}

impl From<NoMemory> for Stop {
    ghost use Rattle.std.specs.Prelude.{◌≡◌};
    ghost use Rattle.addr_resolve.specs.declared.unfolding.Stop.TheVariants as stops;

    ghost from_gives = { λ _ e. e ≡ stops.NoMemory };

    fn from(_: NoMemory) -> Self {
        Stop::NoMemory
    }
}

/// The unfolding from the place with a number: one search, and the objects that it reaches are copied.
pub fn unfold(
    alloc: Global,
    graph: &Graph,
    search: &mut Search,
    cabs: &[Cab],
    start: u32,
) -> Result<Items<Item>, Stop>
    requires within { start < length graph.now.places }
    requires many { length graph.now.rows ≡ length graph.now.places }
    requires lost { length graph.now.lost ≡ length graph.now.places }
    requires below { AreBelow graph.now.rows (length graph.now.rows) }
    requires size { search.old ≡ length graph.now.rows }
    requires held { AreHeld cabs.now graph.now.places }
    requires ordered { AreInOrder graph.now.places }
    ensures size { search.new ≡ search.old }
    // Over the graph of the files the items are exactly the unfolding, or the GUID is the least that the walk loses.
    ensures unfolds { (files : List Opened) (q : PlaceRow)
        → IsGraph files graph.now.places graph.now.rows graph.now.lost → ShowsCabs files cabs.now → HoldOne files
        → slice_get graph.now.places start ≡ Some q → StopsAt files (place_at q) result }
{
    let found = search.reached(alloc, graph.rows.as_slice(), &[start])?;
    match least_lost(graph.lost.as_slice(), found.as_slice()) {
        Some(guid) => Err(Stop::Lost(guid)),
        None => {
            let picks = picks_of(alloc, graph.places.as_slice(), found.as_slice())?;
            let items = items_of(alloc, cabs, graph.places.as_slice(), picks.as_slice())?;
            Ok(items)
        }
    }
}
