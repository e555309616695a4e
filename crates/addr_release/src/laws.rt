// Laws of releases, for the crates that build, update and load. Nothing runs.
ghost use Rattle.std.specs.Prelude.{◌↔◌, ℕ, List};
ghost use Rattle.addr_base.specs.declared.files.MemFile.{MemFile as File};
ghost use Rattle.addr_layout.specs.Laws.{AtMostOne};
ghost use Rattle.addr_pack.specs.BundleNames.{InternalNamesDiffer};
ghost use Rattle.addr_pack.specs.Placement.{IsPlaced};
ghost use Rattle.addr_project.specs.Reach.{Row, Shown};
ghost use Rattle.addr_release.specs.Built.{IsReleaseOf, Release};
ghost use Rattle.addr_release.specs.Held.{IsHeld};
ghost use Rattle.addr_release.specs.Images.{NamesApart};
ghost use Rattle.addr_release.specs.Laws.{AreThere};
ghost use Rattle.addr_release.specs.Puts.{IsAfter, NoneTaken, puts_of};
ghost use Rattle.addr_release.specs.Resolve.{Resolve};
ghost use Rattle.addr_release.specs.Sound.{HasSoundRelease};

use addr_pack::Plan;
use addr_project::Project;

/// A project has one release, to the byte: whoever builds it again makes the same files.
pub fn release_is_one(project: &Project)
    ensures { AtMostOne (IsReleaseOf project.now) }
{
    project.kept();
}

/// So a second build finds no name taken, and each of its files there.
pub fn release_again(project: &Project)
    ensures { (r s : Release) (folder : List ℕ) (old new : List File) → IsReleaseOf project.now r
        → IsReleaseOf project.now s → NoneTaken old folder r → IsAfter (puts_of folder r) old new
        → NoneTaken new folder s × AreThere (puts_of folder s) new }
{
    project.kept();
}

/// Where different names have different digests, internal names tell bundles apart, and only there.
pub fn names_apart(project: &Project, plan: &Plan)
    requires { IsPlaced project.now plan.now }
    ensures { InternalNamesDiffer plan.now ↔ NamesApart plan.now }
{}

/// After the puts of a project's release each key resolves to exactly what the project shows under it.
pub fn release_shows(project: &Project, plan: &Plan)
    requires { IsPlaced project.now plan.now }
    ensures { NamesApart plan.now → (r : Release) (folder : List ℕ) (old new : List File)
        → IsReleaseOf project.now r → NoneTaken old folder r → IsAfter (puts_of folder r) old new
        → (key : List ℕ) (shown : List Row) → Resolve new folder key shown ↔ Shown project.now key shown }
{
    project.kept();
}

/// After its puts the release is sound.
pub fn release_is_sound(project: &Project, plan: &Plan)
    requires { IsPlaced project.now plan.now }
    ensures { NamesApart plan.now → (r : Release) (folder : List ℕ) (old new : List File)
        → IsReleaseOf project.now r → NoneTaken old folder r → IsAfter (puts_of folder r) old new
        → HasSoundRelease new folder }
{
    project.kept();
}

/// After its puts the folder holds the state that its catalogue names.
pub fn release_is_held(project: &Project, plan: &Plan)
    requires { IsPlaced project.now plan.now }
    ensures { (r : Release) (folder : List ℕ) (old new : List File)
        → IsReleaseOf project.now r → NoneTaken old folder r → IsAfter (puts_of folder r) old new
        → IsHeld new folder }
{
    project.kept();
}
