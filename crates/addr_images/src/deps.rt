// How many dependencies all bundles have together where each needs what its row says, for a limit that is tested before dependency
// lists are made.
ghost use Rattle.std.specs.Prelude.{◌≡◌, ◌<◌, ◌^◌, [], ◌∷◌, length, IfOk};
ghost use Rattle.addr_layout.specs.Counts.{IsDepsCountOver};
ghost use Rattle.addr_walks.specs.Rows.{AreBelow, Edge, IsSizeOf, LedTo};

use addr_base::{Items, NoMemory};
use addr_pack::Plan;
use addr_walks::Search;
use std::alloc::Global;

/// Each bundle counts itself with them. Makes one search a bundle.
pub fn deps_over(alloc: Global, plan: &Plan, direct: &[Items<u32>]) -> Result<u64, NoMemory>
    requires few { length plan.now.bundles < 2 ^ 31 }
    requires many { length direct.now ≡ length plan.now.bundles }
    requires below { AreBelow direct.now (length direct.now) }
    ensures { IfOk result (IsDepsCountOver (Edge direct.now) plan.now) }
{
    let mut search = Search::new(alloc, direct.len())?;
    let mut total = 0;
    for b in 0..direct.len() {
        let count = deps_from(&mut search, direct, b as u32)?;
        total += count as u64;
    }
    Ok(total)
}

fn deps_from(search: &mut Search, direct: &[Items<u32>], b: u32) -> Result<usize, NoMemory>
    requires below { AreBelow direct.now (length direct.now) }
    requires within { b < length direct.now }
    requires size { search.old ≡ length direct.now }
    ensures size { search.new ≡ search.old }
    ensures count { IfOk result (IsSizeOf (LedTo direct.now (b ∷ []))) }
{
    let count = search.count(direct, &[b])?;
    Ok(count)
}
