// What each bundle needs, as rows of the numbers of bundles, where these are few enough to be held.
ghost use Rattle.std.specs.Prelude.{◌≡◌, ◌<◌, ◌^◌, length, IfOk, IfSome};
ghost use Rattle.addr_walks.specs.Places.{EachAt};
ghost use Rattle.addr_layout.specs.Graph.{IsDirect, IsSized};

use crate::graph::Graph;
use crate::laying::full;
use crate::model::LayBundle;
use addr_base::{Items, NoMemory};
use addr_walks::Search;
use std::alloc::Global;

/// For each bundle, a kept one too, the bundles that it needs, ascending; None as soon as these lists have more than `bound`
/// numbers together. Holds the homes of one bundle at a time.
pub fn direct_within(
    alloc: Global,
    graph: &Graph,
    search: &mut Search,
    bound: usize,
) -> Result<Option<Items<Items<u32>>>, NoMemory>
    requires sized { IsSized graph.now }
    requires few { length graph.now.seeds < 2 ^ 32 }
    requires size { search.old ≡ length graph.now.guids }
    ensures as_many { IfOk result (λ found. IfSome found (λ rows. length rows ≡ length graph.now.seeds)) }
    ensures direct { IfOk result (λ found. IfSome found (EachAt (IsDirect graph.now))) }
{
    let mut rows = Items::new(alloc);
    let mut room = bound;
    for b in 0..graph.seeds.len() {
        let direct = direct_at(alloc, graph, search, b)?;
        if direct.len() > room {
            return Ok(None);
        }
        room -= direct.len();
        rows.push(direct)?;
    }
    Ok(Some(rows))
}

fn direct_at(
    alloc: Global,
    graph: &Graph,
    search: &mut Search,
    b: usize,
) -> Result<Items<u32>, NoMemory>
    requires sized { IsSized graph.now }
    requires few { length graph.now.seeds < 2 ^ 32 }
    requires within { b < length graph.now.seeds }
    requires size { search.old ≡ length graph.now.guids }
    ensures size { search.new ≡ search.old }
    ensures direct { IfOk result (IsDirect graph.now b) }
{
    let LayBundle { direct, .. } = full(alloc, graph, search, b)?;
    Ok(direct)
}
