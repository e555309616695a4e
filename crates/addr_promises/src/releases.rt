// Releases: what players get after a build, after an update, and while either is under way.
ghost use Rattle.std.specs.Prelude.{◌≡◌, ◌↔◌, ℕ, List, take};
ghost use Rattle.addr_base.specs.declared.files.MemFile.{MemFile as File};
ghost use Rattle.addr_build.specs.Laws.{IsOldOrNew};
ghost use Rattle.addr_build.specs.Outcomes.{IsBegun};
ghost use Rattle.addr_pack.specs.Placement.{IsPlaced};
ghost use Rattle.addr_project.specs.Model.{Project as Contents};
ghost use Rattle.addr_project.specs.Reach.{Row, Shown};
ghost use Rattle.addr_release.specs.Built.{IsReleaseOf, Release};
ghost use Rattle.addr_release.specs.Held.{IsHeld};
ghost use Rattle.addr_release.specs.Images.{NamesApart};
ghost use Rattle.addr_release.specs.Puts.{IsAfter, NoneTaken, Test, puts_of};
ghost use Rattle.addr_release.specs.Resolve.{Resolve};
ghost use Rattle.addr_release.specs.Sound.{HasSoundRelease};
ghost use Rattle.addr_layout.specs.Laws.{AtMostOne};
ghost use Rattle.addr_resolve.specs.Laws.{AreFiles, HaveOneAnswer};
ghost use Rattle.addr_update.specs.History.{UpdatesShow};
ghost use Rattle.addr_update.specs.Laws.{RowsTell, UpdateAlong, UpdateShows};

use addr_build::build_laws;
use addr_pack::Plan;
use addr_project::Project;
use addr_release::{release_is_held, release_is_one, release_is_sound, release_shows};
use addr_resolve::answer_is_one;
use addr_update::{update_along, update_rows, update_shows, updates_show};

/// A project has one release, to the byte.
pub fn releases_are_one(project: &Project)
    ensures { AtMostOne (IsReleaseOf project.now) }
{
    release_is_one(project);
}

/// After a full build each key resolves to exactly what the project shows under it, the release is sound, and the folder holds the
/// state that its catalogue names. The first two where the internal names of its bundles differ.
pub fn builds_show_the_project(project: &Project, plan: &Plan)
    requires { IsPlaced project.now plan.now }
    ensures shows { NamesApart plan.now → (r : Release) (folder : List ℕ) (old new : List File)
        → IsReleaseOf project.now r → NoneTaken old folder r → IsAfter (puts_of folder r) old new
        → (key : List ℕ) (shown : List Row) → Resolve new folder key shown ↔ Shown project.now key shown }
    ensures sound { NamesApart plan.now → (r : Release) (folder : List ℕ) (old new : List File)
        → IsReleaseOf project.now r → NoneTaken old folder r → IsAfter (puts_of folder r) old new
        → HasSoundRelease new folder }
    ensures held { (r : Release) (folder : List ℕ) (old new : List File)
        → IsReleaseOf project.now r → NoneTaken old folder r → IsAfter (puts_of folder r) old new
        → IsHeld new folder }
{
    release_shows(project, plan);
    release_is_sound(project, plan);
    release_is_held(project, plan);
}

/// While a build is under way the catalogue is the old one, or that of the project's release.
pub fn builds_switch_at_the_catalogue()
    ensures { (p : Contents) (folder : List ℕ) (puts : List File) (tests : List Test) (k : ℕ) (old new : List File)
        → IsBegun p folder puts tests → IsAfter (take k puts) old new → IsOldOrNew p folder old new }
{
    build_laws();
}

/// After an update each key resolves to what the project shows, the release is sound, no file but catalogue and hash has other
/// bytes, and the state that it started from is intact. Rows of kept entries have their old bundle, with file, id, size and digest of
/// the state, and rows of moved ones the new bundle.
pub fn updates_show_the_project(project: &Project)
    ensures shows { UpdateShows project.now }
    ensures rows { RowsTell project.now }
{
    update_shows(project);
    update_rows(project);
}

/// While an update is under way each key resolves as before up to the catalogue's put, and from there on to what the project shows.
pub fn updates_switch_at_the_catalogue(project: &Project)
    ensures { UpdateAlong project.now }
{
    update_along(project);
}

/// Over any list of edits, builds and updates: what was last shipped stays, and an update leaves each key resolving to what a fresh
/// build gives.
pub fn edits_builds_and_updates_show()
    ensures { UpdatesShow }
{
    updates_show();
}

/// Files of bytes have one answer under a key: the rows that they show, or the first cause of a refusal.
pub fn files_have_one_answer()
    ensures { (files : List File) (folder key : List ℕ) → AreFiles files → HaveOneAnswer files folder key }
{
    answer_is_one();
}
