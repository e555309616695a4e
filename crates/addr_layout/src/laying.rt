// The layout of a placement, one search a bundle over the rows of the project.
ghost use Rattle.std.specs.Prelude.{◌≡◌, ◌<◌, ◌^◌, length, map, IfOk};
ghost use Rattle.std.specs.Bool.{MatchBool};
ghost use Rattle.std.specs.List.{All};
ghost use Rattle.std.specs.Ordering.{nat_cmp};
ghost use Rattle.addr_walks.specs.Rows.{LedTo};
ghost use Rattle.addr_walks.specs.Walks.{IsListOf};
ghost use Rattle.addr_layout.specs.Graph.{IsFound, IsSized, number_at, refs_at, seeds_at};
ghost use Rattle.addr_layout.specs.Homes.{home_at};
ghost use Rattle.addr_layout.specs.Layout.{IsBare, IsLayout};
ghost use Rattle.addr_layout.specs.Members.{IsShared};

use crate::graph::{Graph, graph_of};
use crate::homes::{direct_of, homes_of};
use crate::model::{LayBundle, Layout, RefHome};
use addr_base::{Items, NoMemory};
use addr_pack::Plan;
use addr_project::Project;
use addr_walks::Search;
use std::alloc::Global;

/// The members of each bundle that isn't kept, the homes of their references, and the bundles that it needs.
pub fn layout(alloc: Global, project: &Project, plan: &Plan) -> Result<Layout, NoMemory>
    requires few { length plan.now.bundles < 2 ^ 32 }
    requires shared { IsShared project.now plan.now }
    ensures { IfOk result (IsLayout project.now plan.now) }
{
    project.kept();
    let graph = graph_of(alloc, project, plan)?;
    let mut search = Search::new(alloc, graph.guids.len())?;
    let mut bundles = Items::new(alloc);
    for (b, bundle) in plan.bundles.as_slice().iter().enumerate() {
        let lay = laid(alloc, &graph, &mut search, b, bundle.kept)?;
        bundles.push(lay)?;
    }
    Ok(Layout { bundles })
}

fn laid(
    alloc: Global,
    graph: &Graph,
    search: &mut Search,
    b: usize,
    kept: bool,
) -> Result<LayBundle, NoMemory>
    requires sized { IsSized graph.now }
    requires few { length graph.now.seeds < 2 ^ 32 }
    requires within { b < length graph.now.seeds }
    requires size { search.old ≡ length graph.now.guids }
    ensures size { search.new ≡ search.old }
    ensures laid { IfOk result (λ lay. MatchBool kept (IsBare lay) (IsFound graph.now b lay)) }
{
    if kept {
        return Ok(bare(alloc));
    }
    let lay = full(alloc, graph, search, b)?;
    Ok(lay)
}

fn bare(alloc: Global) -> LayBundle
    ensures { IsBare result }
{
    LayBundle {
        members: Items::new(alloc),
        refs: Items::new(alloc),
        direct: Items::new(alloc),
    }
}

/// A bundle as if it weren't kept.
pub fn full(
    alloc: Global,
    graph: &Graph,
    search: &mut Search,
    b: usize,
) -> Result<LayBundle, NoMemory>
    requires sized { IsSized graph.now }
    requires few { length graph.now.seeds < 2 ^ 32 }
    requires within { b < length graph.now.seeds }
    requires size { search.old ≡ length graph.now.guids }
    ensures size { search.new ≡ search.old }
    ensures found { IfOk result (IsFound graph.now b) }
{
    let found = member_ranks(alloc, graph, search, b)?;
    let ranks = found.as_slice();
    let members = numbers_at(alloc, graph, ranks)?;
    let refs = homes_at(alloc, graph, b as u32, ranks)?;
    let direct = direct_of(alloc, refs.as_slice())?;
    Ok(LayBundle {
        members,
        refs,
        direct,
    })
}

/// The ranks of a bundle's members, ascending.
fn member_ranks(
    alloc: Global,
    graph: &Graph,
    search: &mut Search,
    b: usize,
) -> Result<Items<u32>, NoMemory>
    requires sized { IsSized graph.now }
    requires within { b < length graph.now.seeds }
    requires size { search.old ≡ length graph.now.guids }
    ensures size { search.new ≡ search.old }
    ensures list { IfOk result (IsListOf nat_cmp (LedTo graph.now.within (seeds_at graph.now b))) }
    ensures below { IfOk result (All (λ r. r < length graph.now.guids)) }
{
    let found = search.reached(alloc, graph.within.as_slice(), graph.seeds_at(b))?;
    Ok(found)
}

/// The numbers of the assets at some ranks.
fn numbers_at(alloc: Global, graph: &Graph, ranks: &[u32]) -> Result<Items<u32>, NoMemory>
    requires { All (λ r. r < length graph.now.numbers) ranks.now }
    ensures { IfOk result (λ numbers. numbers ≡ map (number_at graph.now) ranks.now) }
{
    let mut numbers = Items::new(alloc);
    for r in ranks.iter() {
        numbers.push(graph.numbers.as_slice()[*r as usize])?;
    }
    Ok(numbers)
}

/// The homes of the references at some ranks.
fn homes_at(
    alloc: Global,
    graph: &Graph,
    b: u32,
    ranks: &[u32],
) -> Result<Items<Items<RefHome>>, NoMemory>
    requires { All (λ r. r < length graph.now.refs) ranks.now }
    ensures { IfOk result
        (λ rows. rows ≡ map (λ r. map (home_at b graph.now.bundles) (refs_at graph.now r)) ranks.now) }
{
    let mut rows = Items::new(alloc);
    for r in ranks.iter() {
        let refs = graph.refs.as_slice()[*r as usize].as_slice();
        rows.push(homes_of(alloc, b, graph.bundles.as_slice(), refs)?)?;
    }
    Ok(rows)
}
