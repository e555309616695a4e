// Whole counts over all bundles, for limits that are tested before a layout or a dependency list is made.
ghost use Rattle.std.specs.Prelude.{◌≡◌, ◌<◌, ◌-◌, ◌^◌, min, length, IfOk};
ghost use Rattle.std.specs.Bool.{MatchBool};
ghost use Rattle.std.specs.List.{sum_by};
ghost use Rattle.addr_walks.specs.Rows.{AreBelow, IsSizeOf, LedTo};
ghost use Rattle.addr_layout.specs.Counts.{IsDepsCount, IsMembersCount};
ghost use Rattle.addr_layout.specs.Graph.{IsSized, seeds_at};
ghost use Rattle.addr_layout.specs.Links.{FollowsNeeds, IsLinked};
ghost use Rattle.addr_layout.specs.Members.{IsShared};

use crate::direct::direct_within;
use crate::graph::{Graph, graph_of};
use crate::links::links_of;
use addr_base::{Items, NoMemory};
use addr_pack::Plan;
use addr_project::Project;
use addr_walks::Search;
use std::alloc::Global;

/// How many members the bundles of a placement have together; a kept bundle counts none.
pub fn members_count(alloc: Global, project: &Project, plan: &Plan) -> Result<u64, NoMemory>
    requires few { length plan.now.bundles < 2 ^ 32 }
    requires shared { IsShared project.now plan.now }
    ensures { IfOk result (IsMembersCount project.now plan.now) }
{
    project.kept();
    let graph = graph_of(alloc, project, plan)?;
    let mut search = Search::new(alloc, graph.guids.len())?;
    let mut total = 0;
    for (b, bundle) in plan.bundles.as_slice().iter().enumerate() {
        let count = member_count(&graph, &mut search, b, bundle.kept)?;
        total += count as u64;
    }
    Ok(total)
}

fn member_count(graph: &Graph, search: &mut Search, b: usize, kept: bool) -> Result<usize, NoMemory>
    requires sized { IsSized graph.now }
    requires within { b < length graph.now.seeds }
    requires size { search.old ≡ length graph.now.guids }
    ensures size { search.new ≡ search.old }
    ensures count { IfOk result
        (λ n. MatchBool kept (n ≡ 0) (IsSizeOf (LedTo graph.now.within (seeds_at graph.now b)) n)) }
{
    if kept {
        return Ok(0);
    }
    let count = search.count(graph.within.as_slice(), graph.seeds_at(b))?;
    Ok(count)
}

/// How many dependencies the bundles of a placement have together, each bundle itself with them. Holds what each bundle needs, no
/// more numbers than there are references, or, where there would be more, a row for each bundle and each asset, which have each
/// reference at most twice; makes two searches a bundle, one of what stands in it and one of what it depends on.
pub fn deps_count(alloc: Global, project: &Project, plan: &Plan) -> Result<u64, NoMemory>
    requires few { length plan.now.bundles < 2 ^ 31 }
    requires shared { IsShared project.now plan.now }
    ensures { IfOk result (IsDepsCount project.now plan.now) }
{
    let rows = need_rows(alloc, project, plan)?;
    let total = count_over(alloc, project, plan, rows.as_slice())?;
    Ok(total)
}

/// Rows of what each bundle needs, where they have together no more numbers than there are references: a search over them then
/// costs no more than it can over links. And else rows of links, which are the shorter ones where many bundles copy an asset with
/// many references, since they have it once.
fn need_rows(alloc: Global, project: &Project, plan: &Plan) -> Result<Items<Items<u32>>, NoMemory>
    requires few { length plan.now.bundles < 2 ^ 31 }
    requires shared { IsShared project.now plan.now }
    ensures { IfOk result (FollowsNeeds project.now plan.now) }
{
    project.kept();
    let graph = graph_of(alloc, project, plan)?;
    let mut search = Search::new(alloc, graph.guids.len())?;
    let most = total_length(graph.refs.as_slice());
    match direct_within(alloc, &graph, &mut search, most)? {
        Some(direct) => Ok(direct),
        None => {
            let links = links_of(alloc, &graph)?;
            Ok(links)
        }
    }
}

/// How many numbers the rows have together; the count stands still at its type's end.
fn total_length(rows: &[Items<u32>]) -> usize
    ensures { result ≡ min (sum_by (λ row. length row) rows.now) (2 ^ 64 - 1) }
{
    let mut total: usize = 0;
    for row in rows.iter() {
        total = total.saturating_add(row.len());
    }
    total
}

/// The dependencies of all bundles, by one search a bundle over rows that lead as needs do.
fn count_over(
    alloc: Global,
    project: &Project,
    plan: &Plan,
    rows: &[Items<u32>],
) -> Result<u64, NoMemory>
    requires few { length plan.now.bundles < 2 ^ 31 }
    requires follows { FollowsNeeds project.now plan.now rows.now }
    ensures { IfOk result (IsDepsCount project.now plan.now) }
{
    let mut search = Search::new(alloc, rows.len())?;
    let bundles = plan.bundles.len();
    let mut total = 0;
    for b in 0..bundles {
        let count = dep_count(rows, &mut search, bundles, b as u32)?;
        total += count as u64;
    }
    Ok(total)
}

fn dep_count(
    rows: &[Items<u32>],
    search: &mut Search,
    bundles: usize,
    b: u32,
) -> Result<usize, NoMemory>
    requires below { AreBelow rows.now (length rows.now) }
    requires within { b < length rows.now }
    requires size { search.old ≡ length rows.now }
    ensures size { search.new ≡ search.old }
    ensures count { IfOk result (IsSizeOf (IsLinked rows.now bundles b)) }
{
    let count = search.count_below(rows, &[b], bundles)?;
    Ok(count)
}
