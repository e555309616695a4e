// What becomes of an entry: kept where nothing differs, and else the first reason to move.
ghost use Rattle.std.specs.Prelude.{◌≡◌, ◌<◌, ◌↔◌, length, IfOk, IsTrue, List};
ghost use Rattle.addr_base.specs.declared.ids.Guid.{Guid as GuidOf};
ghost use Rattle.addr_cab.specs.Lookup.{Held};
ghost use Rattle.addr_layout.specs.Members.{IsEntryOf, IsShared};
ghost use Rattle.addr_locate.specs.declared.rows.BundleRow.{BundleRow as RowOf};
ghost use Rattle.addr_locate.specs.Rows.{Rows};
ghost use Rattle.addr_pack.specs.declared.bundles.Plan.{Plan as PlanOf};
ghost use Rattle.addr_release.specs.Opened.{Opened};
ghost use Rattle.addr_resolve.specs.Items.{AreNamed, ShowsCabs};
ghost use Rattle.addr_state.specs.declared.model.State.{State as StateOf};
ghost use Rattle.addr_update.specs.Moved.{MovedBefore};
ghost use Rattle.addr_moves.specs.Fates.{IsFate, comparing};
ghost use Rattle.addr_moves.specs.Olds.{TellsOld};
ghost use Rattle.addr_moves.specs.within.Known.{AreSized, IsKnown, fate_by};

use crate::entries::group_of;
use crate::fate::Fate;
use crate::known::{Known, Searches, why_of};
use addr_base::NoMemory;
use addr_project::Project;
use addr_update::Why;
use std::alloc::Global;

fn fate_by(m: u32, why: Option<Why>) -> Fate
    ensures { result ≡ fate_by m why }
{
    match why {
        None => Fate::Kept(m),
        Some(why) => Fate::Moves(why),
    }
}

/// What becomes of an entry.
pub(crate) fn fate_of(
    alloc: Global,
    project: &Project,
    known: &Known,
    searches: &mut Searches,
    x: usize,
    old: Option<u32>,
    before: bool,
) -> Result<Fate, NoMemory>
    requires sized { AreSized project.now known.now }
    requires ways { searches.old.ways ≡ length known.now.rows }
    requires reach { searches.old.reach ≡ length known.now.refs }
    requires entry { x < length project.now.entries }
    ensures ways { searches.new.ways ≡ searches.old.ways }
    ensures reach { searches.new.reach ≡ searches.old.reach }
    ensures fate { IfOk result (λ fate. (s : StateOf) (now : PlanOf) (cabs : List Held) (bundles : List RowOf) (was : List Opened)
        (r : Rows) (a : GuidOf) → IsKnown s project.now now cabs bundles known.now → IsShared project.now now
        → AreNamed was bundles → ShowsCabs was cabs → IsEntryOf project.now x a
        → TellsOld (comparing s was r project.now now) a old → IsTrue before ↔ MovedBefore (comparing s was r project.now now) a
        → IsFate (comparing s was r project.now now) x fate) }
{
    if !group_of(project, x).fixed {
        return Ok(Fate::Free);
    }
    if before {
        return Ok(Fate::Moves(Why::Before));
    }
    match old {
        None => Ok(Fate::Moves(Why::Unknown)),
        Some(m) => {
            let why = why_of(alloc, project, known, searches, x, m)?;
            Ok(fate_by(m, why))
        }
    }
}
