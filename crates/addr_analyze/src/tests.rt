// A worked example from outside: assets that are copied into two and three bundles, one that is copied once, and entries.
ghost use Rattle.addr_layout.specs.Layout.{IsLayout};
ghost use Rattle.addr_pack.specs.Placement.{IsPlaced};

use crate::{Duplicate, duplicates, wasted};
use addr_base::{Depot, Items, MemDepot, NoMemory};
use addr_layout::{Layout, layout, placement_is_shared};
use addr_pack::{Plan, plan};
use addr_project::Project;
use std::alloc::Global;
use std::test::Fail;

/// Entries 1, 2 and 3 stand each in a bundle of its own. 9, of three bytes, is copied into all of them, 8, of five, into those of
/// 1 and 2, since 1 and 2 refer to 7 and 8, and 7 refers to 8 as well. 6 is copied into that of 3 alone. Assets stand in another
/// order than GUIDs.
const PROJECT: &str = "\
[[group]]\nname = 'X'\nmode = 'separate'\n\
[[asset]]\nguid = '00000000000000000000000000000009'\ntype = 'T'\nfile = 'three'\n\
[[asset]]\nguid = '00000000000000000000000000000001'\ntype = 'T'\nfile = 'three'\nrefs = ['00000000000000000000000000000009', '00000000000000000000000000000008', '00000000000000000000000000000008']\n\
[[asset]]\nguid = '00000000000000000000000000000002'\ntype = 'T'\nfile = 'three'\nrefs = ['00000000000000000000000000000008', '00000000000000000000000000000009', '00000000000000000000000000000001']\n\
[[asset]]\nguid = '00000000000000000000000000000003'\ntype = 'T'\nfile = 'three'\nrefs = ['00000000000000000000000000000006', '00000000000000000000000000000001']\n\
[[asset]]\nguid = '00000000000000000000000000000008'\ntype = 'T'\nfile = 'five'\n\
[[asset]]\nguid = '00000000000000000000000000000006'\ntype = 'T'\nfile = 'five'\nrefs = ['00000000000000000000000000000009']\n\
[[entry]]\nguid = '00000000000000000000000000000001'\ngroup = 'X'\naddress = 'x'\n\
[[entry]]\nguid = '00000000000000000000000000000002'\ngroup = 'X'\naddress = 'y'\n\
[[entry]]\nguid = '00000000000000000000000000000003'\ngroup = 'X'\naddress = 'z'\n";

/// A refusal of the project ends as want of memory.
fn read(alloc: Global) -> Result<Project, NoMemory> {
    let mut depot = MemDepot::new(Vec::new(alloc), Vec::new(alloc));
    let _project = depot.put(alloc, "F/project.toml", PROJECT.as_bytes());
    let _three = depot.put(alloc, "F/three", b"abc");
    let _five = depot.put(alloc, "F/five", b"abcde");
    match Project::read(alloc, &mut depot, "F") {
        Ok(project) => Ok(project),
        Err(_) => Err(NoMemory),
    }
}

/// What is found, and what it wastes.
#[derive(Drop)]
struct Found {
    duplicates: Items<Duplicate>,
    wasted: u64,
}

fn find_in(alloc: Global, project: &Project, plan: &Plan) -> Result<Found, NoMemory>
    requires { IsPlaced project.now plan.now }
{
    placement_is_shared(project, plan);
    let layout = layout(alloc, project, plan)?;
    found_in(alloc, project, plan, &layout)
}

fn found_in(
    alloc: Global,
    project: &Project,
    plan: &Plan,
    layout: &Layout,
) -> Result<Found, NoMemory>
    requires placed { IsPlaced project.now plan.now }
    requires laid { IsLayout project.now plan.now layout.now }
{
    let duplicates = duplicates(alloc, project, plan, layout)?;
    let wasted = wasted(project, plan, duplicates.as_slice());
    Ok(Found { duplicates, wasted })
}

fn find(alloc: Global) -> Result<Found, NoMemory> {
    let project = read(alloc)?;
    match plan(alloc, &project) {
        Ok(plan) => find_in(alloc, &project, &plan),
        Err(_) => Err(NoMemory),
    }
}

#[test]
fn tells_copies_in_two_and_three_bundles(rt: HostRuntime) -> Result<(), Fail> {
    let found = find(rt.alloc())?;
    assert_eq!(rt; found.wasted, 11);
    let duplicates = found.duplicates.as_slice();
    assert_eq!(rt; duplicates.len(), 2);
    for (duplicate, (asset, bundles, wasted)) in duplicates.iter().zip([(4, 2, 5), (0, 3, 6)]) {
        assert_eq!(rt; duplicate.asset, asset);
        assert_eq!(rt; duplicate.bundles, bundles);
        assert_eq!(rt; duplicate.wasted, wasted);
    }
    Ok(())
}
