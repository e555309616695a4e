// Bundles and assets as rows of numbers, made once, over which one search a bundle finds the bundles that it depends on.
// The search never comes upon an entry: a bundle has the links of its entries, and every other reference to one leads to its bundle.
ghost use Rattle.std.specs.Prelude.{◌≡◌, ◌++◌, ◌<◌, ◌^◌, length, map, IfOk, OnOk};
ghost use Rattle.std.specs.List.{All, flat_map};
ghost use Rattle.addr_layout.specs.Graph.{IsSized};
ghost use Rattle.addr_layout.specs.Links.{link_at, links_at, links_of};

use crate::graph::Graph;
use addr_base::{Items, NoMemory};
use std::alloc::Global;

/// A row for each bundle, and behind these one for each rank; together no longer than the references twice.
pub fn links_of(alloc: Global, graph: &Graph) -> Result<Items<Items<u32>>, NoMemory>
    requires few { length graph.now.seeds < 2 ^ 31 }
    requires sized { IsSized graph.now }
    ensures { IfOk result (λ links. links ≡ links_of graph.now) }
{
    let mut links = Items::new(alloc);
    for entries in graph.seeds.as_slice().iter() {
        links.push(bundle_links(alloc, graph, entries.as_slice())?)?;
    }
    for refs in graph.refs.as_slice().iter() {
        links.push(asset_links(alloc, graph, refs.as_slice())?)?;
    }
    Ok(links)
}

fn bundle_links(alloc: Global, graph: &Graph, entries: &[u32]) -> Result<Items<u32>, NoMemory>
    requires few { length graph.now.seeds < 2 ^ 31 }
    requires sized { IsSized graph.now }
    requires below { All (λ r. r < length graph.now.guids) entries.now }
    ensures { IfOk result (λ links. links ≡ flat_map (links_at graph.now) entries.now) }
{
    let mut links = Items::new(alloc);
    for rank in entries.iter() {
        add_links(&mut links, graph, graph.refs_at(*rank))?;
    }
    Ok(links)
}

fn asset_links(alloc: Global, graph: &Graph, refs: &[u32]) -> Result<Items<u32>, NoMemory>
    requires few { length graph.now.seeds < 2 ^ 31 }
    requires sized { IsSized graph.now }
    requires below { All (λ r. r < length graph.now.guids) refs.now }
    ensures { IfOk result (λ links. links ≡ map (link_at graph.now) refs.now) }
{
    let mut links = Items::new(alloc);
    add_links(&mut links, graph, refs)?;
    Ok(links)
}

fn add_links(links: &mut Items<u32>, graph: &Graph, refs: &[u32]) -> Result<(), NoMemory>
    requires few { length graph.now.seeds < 2 ^ 31 }
    requires sized { IsSized graph.now }
    requires below { All (λ r. r < length graph.now.guids) refs.now }
    ensures { OnOk result (links.new ≡ links.old ++ map (link_at graph.now) refs.now) }
{
    for rank in refs.iter() {
        links.push(link_at(graph, *rank))?;
    }
    Ok(())
}

fn link_at(graph: &Graph, rank: u32) -> u32
    requires few { length graph.now.seeds < 2 ^ 31 }
    requires sized { IsSized graph.now }
    requires below { rank < length graph.now.guids }
    ensures { result ≡ link_at graph.now rank }
{
    match graph.bundles.as_slice().get(rank as usize) {
        Some(Some(bundle)) => *bundle,
        _ => graph.seeds.len() as u32 + rank,
    }
}
