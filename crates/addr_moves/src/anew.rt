// Where references may lead anew: the internal names of the project's own bundles in groups that aren't fixed, by the GUIDs of
// their entries.
ghost use Rattle.std.specs.Prelude.{◌≡◌, ◌<◌, length, IfOk, OnOk, ℕ};
ghost use Rattle.std.specs.List.{All};
ghost use Rattle.addr_base.specs.declared.ids.Guid.{Guid as GuidOf};
ghost use Rattle.addr_layout.specs.Members.{IsEntryOf, IsShared};
ghost use Rattle.addr_moves.specs.within.Anew.{AddsFree, AddsNames, AreAnew, IsFree, name_under};

use addr_base::{Digest, NoMemory};
use addr_cab::internal_name;
use addr_pack::{Plan, PlanBundle};
use addr_project::Project;
use std::alloc::Global;
use std::collections::BTreeMap;

/// The bytes of the GUID of an entry's asset.
fn guid_bytes(project: &Project, x: usize) -> &[u8]
    requires { x < length project.now.entries }
    ensures { (a : GuidOf) × IsEntryOf project.now x a × (result.now ≡ a.0) }
{
    project.kept();
    let entry = &project.entries()[x];
    &project.assets()[entry.asset as usize].guid.0
}

/// Puts a name under the GUIDs of some entries.
fn add_names<'a>(
    anew: &mut BTreeMap<&'a [u8], Digest>,
    project: &'a Project,
    entries: &[u32],
    name: Digest,
) -> Result<(), NoMemory>
    requires { All (λ x. x < length project.now.entries) entries.now }
    ensures { OnOk result (AddsNames project.now (name_under anew.old) entries.now name (name_under anew.new)) }
{
    for x in entries {
        anew.insert(guid_bytes(project, *x as usize), name)?;
    }
    Ok(())
}

/// Whether a group isn't fixed.
fn is_free(project: &Project, group: u32) -> bool
    ensures { IsFree project.now group result }
{
    match project.groups().get(group as usize) {
        None => false,
        Some(group) => !group.fixed,
    }
}

/// Adds a bundle of the placement, where its group isn't fixed.
fn add_bundle<'a>(
    anew: &mut BTreeMap<&'a [u8], Digest>,
    project: &'a Project,
    bundle: &PlanBundle,
) -> Result<(), NoMemory>
    requires { All (λ x. x < length project.now.entries) bundle.now.entries }
    ensures { OnOk result (AddsFree project.now (name_under anew.old) bundle.now (name_under anew.new)) }
{
    if !is_free(project, bundle.group) {
        return Ok(());
    }
    let name = internal_name(bundle.name.as_str());
    add_names(anew, project, bundle.entries.as_slice(), name)?;
    Ok(())
}

/// By the GUID of each entry whose group isn't fixed the internal name of its bundle in the project's own placement.
pub(crate) fn anew_of<'a>(
    alloc: Global,
    project: &'a Project,
    now: &Plan,
) -> Result<BTreeMap<&'a [u8], Digest>, NoMemory>
    requires { IsShared project.now now.now }
    ensures { IfOk result (λ anew. AreAnew project.now now.now (length now.now.bundles) (name_under anew)) }
{
    let bundles = now.bundles.as_slice();
    let mut anew = BTreeMap::new(alloc);
    for bundle in bundles {
        add_bundle(&mut anew, project, bundle)?;
    }
    Ok(anew)
}
