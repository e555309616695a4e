// What a project's entries name: the asset and its GUID, and the group.
ghost use Rattle.std.specs.Prelude.{◌<◌, length};
ghost use Rattle.addr_base.specs.declared.ids.Guid.{Guid as GuidOf};
ghost use Rattle.addr_layout.specs.Members.{IsEntryOf, IsNumbered};
ghost use Rattle.addr_moves.specs.Fates.{IsGroupOf};

use addr_base::Guid;
use addr_project::{Group, Project};

/// The GUID of an entry's asset.
pub(crate) fn guid_of(project: &Project, x: usize) -> Guid
    requires { x < length project.now.entries }
    ensures { IsEntryOf project.now x result }
{
    project.kept();
    let entry = &project.entries()[x];
    project.assets()[entry.asset as usize].guid
}

/// The number of an entry's asset.
pub(crate) fn asset_of(project: &Project, x: usize) -> u32
    requires { x < length project.now.entries }
    ensures within { result < length project.now.assets }
    ensures number { (a : GuidOf) → IsEntryOf project.now x a → IsNumbered project.now result a }
{
    project.kept();
    project.entries()[x].asset
}

/// The group of an entry.
pub(crate) fn group_of(project: &Project, x: usize) -> &Group
    requires { x < length project.now.entries }
    ensures { IsGroupOf project.now x result.now }
{
    project.kept();
    let entry = &project.entries()[x];
    &project.groups()[entry.group as usize]
}
