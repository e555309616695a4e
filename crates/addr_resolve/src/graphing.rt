// The graph of the opened files: the places of all objects, where their references lead, and what they lose.
ghost use Rattle.std.specs.Prelude.{◌≡◌, ◌<◌, ◌^◌, length, IfOk, List};
ghost use Rattle.addr_release.specs.Opened.{Opened};
ghost use Rattle.addr_resolve.specs.Graph.{AreInOrder, IsGraph};
ghost use Rattle.addr_resolve.specs.Items.{AreHeld, AreNamed, HoldOne, ShowsCabs};
ghost use Rattle.addr_walks.specs.Rows.{AreBelow};

use crate::leading::{Table, table_of};
use crate::names::firsts_of;
use crate::places::places_of;
use crate::unfolding::Graph;
use addr_base::NoMemory;
use addr_cab::Cab;
use addr_locate::BundleRow;
use std::alloc::Global;

/// The graph of the bundles of a catalogue, as its rows name them, and as they were opened. A sort of the places, and for each
/// reference a look-up of its bundle's name and of its place, both by halving; memory for places, references and names. More
/// places than 32 bits can number are want of memory, too.
pub fn graph_of(alloc: Global, bundles: &[BundleRow], cabs: &[Cab]) -> Result<Graph, NoMemory>
    requires same { length bundles.now ≡ length cabs.now }
    requires few { length cabs.now < 2 ^ 32 }
    ensures graph { IfOk result (λ g. (files : List Opened) → AreNamed files bundles.now → ShowsCabs files cabs.now
        → IsGraph files g.places g.rows g.lost) }
    ensures one { (files : List Opened) → ShowsCabs files cabs.now → HoldOne files }
    // What an unfolding requires.
    ensures held { IfOk result (λ g. AreHeld cabs.now g.places) }
    ensures ordered { IfOk result (λ g. AreInOrder g.places) }
    ensures few { IfOk result (λ g. length g.places < 2 ^ 32) }
    ensures many { IfOk result (λ g. length g.rows ≡ length g.places) }
    ensures lost { IfOk result (λ g. length g.lost ≡ length g.places) }
    ensures below { IfOk result (λ g. AreBelow g.rows (length g.rows)) }
{
    let places = places_of(alloc, cabs)?;
    if places.len() > u32::MAX as usize {
        return Err(NoMemory);
    }
    let firsts = firsts_of(alloc, bundles)?;
    let Table { rows, lost } = table_of(alloc, &firsts, cabs, places.as_slice())?;
    Ok(Graph { places, rows, lost })
}
