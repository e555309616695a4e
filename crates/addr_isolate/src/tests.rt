// A worked example from outside: a project file with a comment, a member that the format doesn't have, and a name that is taken.
ghost use Rattle.addr_pack.specs.Placement.{IsPlaced};

use crate::isolate_folder;
use addr_analyze::duplicates;
use addr_base::{Depot, MemDepot, NoMemory, Text};
use addr_layout::{layout, placement_is_shared};
use addr_pack::{Plan, plan};
use addr_project::Project;
use std::alloc::Global;
use std::test::Fail;

/// Entries 1 and 2 stand each in a bundle of its own and both refer to 3. The first name for the new group is taken.
const PROJECT: &str = "\
# kept by hand\n\
owner = 'me'\n\
version = '2021.3.0f1'\n\
[[group]]\nname = 'Duplicate Assets'\nmode = 'separate'\nnote = 'x'\n\
[[asset]]\nguid = '00000000000000000000000000000001'\ntype = 'T'\nfile = 'a'\nrefs = ['00000000000000000000000000000003']\n\
[[asset]]\nguid = '00000000000000000000000000000002'\ntype = 'T'\nfile = 'a'\nrefs = ['00000000000000000000000000000003']\n\
[[asset]]\nguid = '00000000000000000000000000000003'\ntype = 'T'\nfile = 'a'\n\
[[entry]]\nguid = '00000000000000000000000000000001'\ngroup = 'Duplicate Assets'\naddress = 'x'\n\
[[entry]]\nguid = '00000000000000000000000000000002'\ngroup = 'Duplicate Assets'\naddress = 'y'\nlabels = ['b', 'a']\n";

/// What stands there afterwards: tables by their names, the rest as it was, the group and its entry last.
const ISOLATED: &str = "\
version = \"2021.3.0f1\"\n\
\n[[asset]]\nfile = \"a\"\nguid = \"00000000000000000000000000000001\"\nrefs = [\"00000000000000000000000000000003\"]\ntype = \"T\"\n\
\n[[asset]]\nfile = \"a\"\nguid = \"00000000000000000000000000000002\"\nrefs = [\"00000000000000000000000000000003\"]\ntype = \"T\"\n\
\n[[asset]]\nfile = \"a\"\nguid = \"00000000000000000000000000000003\"\ntype = \"T\"\n\
\n[[entry]]\naddress = \"x\"\ngroup = \"Duplicate Assets\"\nguid = \"00000000000000000000000000000001\"\n\
\n[[entry]]\naddress = \"y\"\ngroup = \"Duplicate Assets\"\nguid = \"00000000000000000000000000000002\"\nlabels = [\"b\", \"a\"]\n\
\n[[entry]]\naddress = \"00000000000000000000000000000003\"\ngroup = \"Duplicate Assets 2\"\nguid = \"00000000000000000000000000000003\"\n\
\n[[group]]\nmode = \"separate\"\nname = \"Duplicate Assets\"\n\
\n[[group]]\nname = \"Duplicate Assets 2\"\n";

fn isolate_in(
    alloc: Global,
    depot: &mut MemDepot,
    project: &Project,
    plan: &Plan,
) -> Result<Text, NoMemory>
    requires { IsPlaced project.now plan.now }
{
    placement_is_shared(project, plan);
    let layout = layout(alloc, project, plan)?;
    let found = duplicates(alloc, project, plan, &layout)?;
    match isolate_folder(alloc, depot, "F", project, plan, found.as_slice()) {
        Ok(group) => Ok(group),
        Err(_) => Err(NoMemory),
    }
}

/// A refusal of the project ends as want of memory.
fn isolate_project(alloc: Global, depot: &mut MemDepot) -> Result<Text, NoMemory> {
    let project = match Project::read(alloc, depot, "F") {
        Ok(project) => project,
        Err(_) => return Err(NoMemory),
    };
    match plan(alloc, &project) {
        Ok(plan) => isolate_in(alloc, depot, &project, &plan),
        Err(_) => Err(NoMemory),
    }
}

#[test]
fn puts_the_file_with_the_group(rt: HostRuntime) -> Result<(), Fail> {
    let mut depot = MemDepot::new(Vec::new(rt.alloc()), Vec::new(rt.alloc()));
    let _project = depot.put(rt.alloc(), "F/project.toml", PROJECT.as_bytes());
    let _asset = depot.put(rt.alloc(), "F/a", b"abc");
    let group = isolate_project(rt.alloc(), &mut depot)?;
    assert_eq!(rt; group.as_str(), "Duplicate Assets 2");
    let Ok(Some(file)) = depot.read(rt.alloc(), "F/project.toml") else {
        return Err("the file is read".into());
    };
    assert_eq!(rt; file.as_slice(), ISOLATED.as_bytes());
    Ok(())
}
