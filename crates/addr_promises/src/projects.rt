// Projects: what a folder stands for, and into which bundles it is packed.
ghost use Rattle.std.specs.Prelude.{ℕ, List};
ghost use Rattle.addr_base.specs.declared.files.MemFile.{MemFile as File};
ghost use Rattle.addr_pack.specs.Laws.{NamesTell, NoneTwice, OnePlacement};
ghost use Rattle.addr_project.specs.Laws.{HasOneAnswer, ShowsOnce};

use addr_pack::placement_laws;
use addr_project::{Project, folder_has_one_answer, project_shows_once};

/// A folder stands for exactly one project, or breaks exactly one test first.
pub fn folders_stand_for_one_project()
    ensures { (files : List File) (folder : List ℕ) → HasOneAnswer files folder }
{
    folder_has_one_answer();
}

/// A project shows exactly one list of rows under each key.
pub fn projects_show_one_list(project: &Project)
    ensures { (key : List ℕ) → ShowsOnce project.now key }
{
    project_shows_once(project);
}

/// A project has one placement.
pub fn placements_are_one(project: &Project)
    ensures { OnePlacement project.now }
{
    placement_laws(project);
}

/// No entry stands in two bundles, and no two bundles have one name.
pub fn entries_stand_in_one_bundle(project: &Project)
    ensures entries { NoneTwice project.now }
    ensures names { NamesTell project.now }
{
    placement_laws(project);
}
