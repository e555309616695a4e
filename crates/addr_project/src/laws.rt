// What holds of every folder and of every project, so that reading and showing have one right answer. Nothing runs.
ghost use Rattle.std.specs.Prelude.{ℕ, List};
ghost use Rattle.addr_base.specs.declared.files.MemFile.{MemFile};
ghost use Rattle.addr_project.specs.Laws.{HasOneAnswer, HasKeys, ShowsOnce};
ghost use Rattle.addr_project.specs.declared.model.Asset.{Asset};
ghost use Rattle.addr_project.specs.declared.model.Entry.{Entry};

use crate::project::Project;

/// A folder stands for exactly one project, or else breaks exactly one test first, whatever files there are.
pub fn folder_has_one_answer()
    ensures { (files : List MemFile) (folder : List ℕ) → HasOneAnswer files folder }
{}

/// Which keys an entry has, whatever its asset is.
pub fn entry_has_keys()
    ensures { (e : Entry) (asset : Asset) → HasKeys e asset }
{}

/// A project shows exactly one list of rows under each key.
pub fn project_shows_once(project: &Project)
    ensures { (key : List ℕ) → ShowsOnce project.now key }
{
    project.kept();
}
