// What becomes of all entries, in the order of the project.
ghost use Rattle.std.specs.Prelude.{◌≡◌, ◌<◌, ◌^◌, length, IfOk, List};
ghost use Rattle.addr_layout.specs.Members.{IsShared};
ghost use Rattle.addr_release.specs.Opened.{Opened};
ghost use Rattle.addr_resolve.specs.Items.{AreNamed, ShowsCabs};
ghost use Rattle.addr_state.specs.Sound.{EntriesOnce};
ghost use Rattle.addr_moves.specs.Fates.{AreFates, comparing};

use crate::before::moved_before;
use crate::fate::Fate;
use crate::fates::fate_of;
use crate::knowing::know;
use crate::known::Searches;
use crate::olds::old_bundles;
use addr_base::{Items, NoMemory};
use addr_cab::Cab;
use addr_locate::{BundleRow, Locator};
use addr_pack::Plan;
use addr_project::Project;
use addr_state::State;
use addr_walks::Search;
use std::alloc::Global;

/// What becomes of each entry of a project in an update of the release that the state describes. The bundles of the state are
/// given as they were opened, in its order, with rows that have their internal names; the locator has the rows of the present
/// catalogue. The ways of entries are walked only where a place is reached that differs; all else takes a step or a look-up for
/// each place, reference and entry.
pub fn fates_of(
    alloc: Global,
    project: &Project,
    now: &Plan,
    state: &State,
    cabs: &[Cab],
    rows: &[BundleRow],
    locator: &Locator,
) -> Result<Items<Fate>, NoMemory>
    requires same { length rows.now ≡ length cabs.now }
    requires few { length cabs.now < 2 ^ 32 }
    requires bundles { length state.now.bundles < 2 ^ 32 }
    requires once { EntriesOnce state.now.bundles }
    requires shared { IsShared project.now now.now }
    ensures { IfOk result (λ fates. (was : List Opened) → AreNamed was rows.now → ShowsCabs was cabs.now
        → AreFates (comparing state.now was locator.now project.now now.now) fates) }
{
    project.kept();
    let known = know(alloc, project, now, state, cabs, rows)?;
    let olds = old_bundles(alloc, project, state)?;
    let old_at = olds.as_slice();
    let moved = moved_before(alloc, project, locator)?;
    let moved_at = moved.as_slice();
    let ways = Search::new(alloc, known.rows.len())?;
    let reach = Search::new(alloc, known.refs.len())?;
    let mut searches = Searches { ways, reach };
    let mut fates = Items::new(alloc);
    for x in 0..project.entries().len() {
        let fate = fate_of(
            alloc,
            project,
            &known,
            &mut searches,
            x,
            old_at[x],
            moved_at[x],
        )?;
        fates.push(fate)?;
    }
    Ok(fates)
}
