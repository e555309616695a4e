// What is known of the state's files and of the project, made once for all entries.
ghost use Rattle.std.specs.Prelude.{◌≡◌, ◌<◌, ◌^◌, length, IfOk};
ghost use Rattle.addr_layout.specs.Members.{IsShared};
ghost use Rattle.addr_moves.specs.within.Homes.{AreHomes};
ghost use Rattle.addr_moves.specs.within.Known.{IsKnown};

use crate::anew::anew_of;
use crate::assets::{numbers_of, refs_of};
use crate::bad::bad_of;
use crate::firsts::firsts_of;
use crate::known::Known;
use crate::looks::{Homes, Looks, looks_of};
use crate::stays::stays_of;
use addr_base::NoMemory;
use addr_cab::Cab;
use addr_locate::BundleRow;
use addr_pack::Plan;
use addr_project::Project;
use addr_resolve::{Graph, graph_of};
use addr_state::State;
use addr_update::doubtful;
use std::alloc::Global;

/// Where references of the state's files may lead.
fn homes_of<'a>(
    alloc: Global,
    project: &'a Project,
    now: &Plan,
    state: &State,
    rows: &'a [BundleRow],
) -> Result<Homes<'a>, NoMemory>
    requires { IsShared project.now now.now }
    ensures { IfOk result (AreHomes state.now project.now now.now rows.now) }
{
    let names = firsts_of(alloc, rows)?;
    let stays = stays_of(alloc, project, state)?;
    let numbers = numbers_of(alloc, project)?;
    let anew = anew_of(alloc, project, now)?;
    Ok(Homes {
        names,
        stays,
        numbers,
        anew,
    })
}

/// One graph of the places, one look at each of them, and one search for those from which a bad one is reached.
pub(crate) fn know(
    alloc: Global,
    project: &Project,
    now: &Plan,
    state: &State,
    cabs: &[Cab],
    rows: &[BundleRow],
) -> Result<Known, NoMemory>
    requires same { length rows.now ≡ length cabs.now }
    requires few { length cabs.now < 2 ^ 32 }
    requires shared { IsShared project.now now.now }
    ensures { IfOk result (IsKnown state.now project.now now.now cabs.now rows.now) }
{
    project.kept();
    let homes = homes_of(alloc, project, now, state, rows)?;
    let Graph { places, rows, lost } = graph_of(alloc, rows, cabs)?;
    let Looks { spoils, away } = looks_of(alloc, project, cabs, &homes, places.as_slice())?;
    let bad = bad_of(alloc, spoils.as_slice(), away.as_slice(), lost.as_slice())?;
    let doubted = doubtful(alloc, rows.as_slice(), bad.as_slice())?;
    let refs = refs_of(alloc, project, &homes.numbers)?;
    Ok(Known {
        places,
        rows,
        spoils,
        away,
        doubted,
        refs,
    })
}
