// Laws of updates, for whoever ships. Nothing runs.
ghost use Rattle.addr_update.specs.Doubtful.{WaysTell};
ghost use Rattle.addr_update.specs.Fresh.{FreshKeeps};
ghost use Rattle.addr_update.specs.History.{UpdatesShow};
ghost use Rattle.addr_update.specs.Laws.{CleanStays, EntriesSplit, OneUpdated, PlansShare, RowsTell, UpdateAlong, UpdateShows};

use addr_project::{Project, folder_has_one_answer};
use addr_state::state_laws;

/// Each entry is kept in its one old bundle or has one reason to move, never both. So the entries of fixed groups are split,
/// and what is kept and what moves has a placement.
pub fn entries_split(project: &Project)
    ensures { EntriesSplit project.now }
{
    project.kept();
}

/// What is kept and what moves has one placement.
pub fn one_updated_placement(project: &Project)
    ensures { OneUpdated project.now }
{
    project.kept();
}

/// In an update's placement each entry stands in exactly one bundle.
pub fn moved_placement_is_shared(project: &Project)
    ensures { PlansShare project.now }
{
    project.kept();
}

/// After an update each key resolves to what the project shows under it, the release is sound, no file but catalogue and hash
/// has other bytes, and the state is intact as before.
pub fn update_shows(project: &Project)
    ensures { UpdateShows project.now }
{
    project.kept();
}

/// After some first puts of an update, so at each of its moments, the catalogue is the old one and each key that resolved
/// resolves the same, or it is the new one and each key resolves to what the project shows.
pub fn update_along(project: &Project)
    ensures { UpdateAlong project.now }
{
    project.kept();
}

/// The row of a kept entry leads to its old bundle with all that the state says of it, that of a moved one to the new bundle.
pub fn update_rows(project: &Project)
    ensures { RowsTell project.now }
{
    project.kept();
}

/// Right after a build the state is intact, and each entry of a fixed group is kept.
pub fn fresh_keeps(project: &Project)
    ensures { FreshKeeps project.now }
{
    project.kept();
}

/// Over any list of edits, builds and updates: what was last shipped stays, and an update leaves each key resolving to what a
/// fresh build gives.
pub fn updates_show()
    ensures { UpdatesShow }
{
    folder_has_one_answer();
    state_laws();
}

/// An entry whose way is clean is neither changed nor led away.
pub fn clean_stays(project: &Project)
    ensures { CleanStays project.now }
{
    project.kept();
}

/// An entry from whose old place no bad place is reached is neither changed nor led away.
pub fn clear_ways_stay(project: &Project)
    ensures { WaysTell project.now }
{
    project.kept();
}
