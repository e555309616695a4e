// A worked example from outside: two bundles that need each other and have copies of the same assets.
ghost use Rattle.std.specs.Prelude.{◌<◌, ◌^◌, length};
ghost use Rattle.addr_pack.specs.Placement.{IsPlaced};
ghost use Rattle.addr_layout.specs.Layout.{IsLayout};
ghost use Rattle.addr_layout.specs.Members.{IsShared};

use crate::{
    LayBundle, Layout, RefHome, closed, deps_count, direct_closes, layout, members_count,
    placement_is_shared,
};
use addr_base::{Depot, Items, MemDepot, NoMemory};
use addr_pack::{Plan, plan};
use addr_project::Project;
use std::alloc::Global;
use std::test::Fail;

/// Entry 1 in the group X refers to itself, to entry 2 in the group Y, and to 3. Entry 2 refers to 3 as well, 3 to 4, and 4 to
/// entry 1; 3 and 4 are no entries. Assets stand in another order than GUIDs.
const TWO_GROUPS: &str = "\
[[group]]\nname = 'X'\n\
[[group]]\nname = 'Y'\n\
[[asset]]\nguid = '00000000000000000000000000000002'\ntype = 'T'\nfile = 'a'\nrefs = ['00000000000000000000000000000003']\n\
[[asset]]\nguid = '00000000000000000000000000000001'\ntype = 'T'\nfile = 'a'\nrefs = ['00000000000000000000000000000001', '00000000000000000000000000000002', '00000000000000000000000000000003']\n\
[[asset]]\nguid = '00000000000000000000000000000004'\ntype = 'T'\nfile = 'a'\nrefs = ['00000000000000000000000000000001']\n\
[[asset]]\nguid = '00000000000000000000000000000003'\ntype = 'T'\nfile = 'a'\nrefs = ['00000000000000000000000000000004']\n\
[[entry]]\nguid = '00000000000000000000000000000001'\ngroup = 'X'\naddress = 'x'\n\
[[entry]]\nguid = '00000000000000000000000000000002'\ngroup = 'Y'\naddress = 'y'\n";

const OWN: RefHome = RefHome::Own;

/// A refusal of the project ends as want of memory.
fn read(alloc: Global) -> Result<Project, NoMemory> {
    let mut depot = MemDepot::new(Vec::new(alloc), Vec::new(alloc));
    if depot
        .put(alloc, "F/project.toml", TWO_GROUPS.as_bytes())
        .is_err()
        || depot.put(alloc, "F/a", b"A").is_err()
    {
        return Err(NoMemory);
    }
    match Project::read(alloc, &mut depot, "F") {
        Ok(project) => Ok(project),
        Err(_) => Err(NoMemory),
    }
}

/// What is made of a project.
#[derive(Drop)]
struct Made {
    members: u64,
    deps_total: u64,
    layout: Layout,
    deps: Items<Items<u32>>,
}

fn counts(alloc: Global, project: &Project, plan: &Plan) -> Result<[u64; 2], NoMemory>
    requires few { length plan.now.bundles < 2 ^ 31 }
    requires shared { IsShared project.now plan.now }
{
    let members = members_count(alloc, project, plan)?;
    let deps = deps_count(alloc, project, plan)?;
    Ok([members, deps])
}

fn deps_of(
    alloc: Global,
    project: &Project,
    plan: &Plan,
    layout: &Layout,
) -> Result<Items<Items<u32>>, NoMemory>
    requires few { length plan.now.bundles < 2 ^ 31 }
    requires laid { IsLayout project.now plan.now layout.now }
{
    direct_closes(project, plan, layout);
    let direct = layout.direct(alloc)?;
    closed(alloc, direct.as_slice())
}

fn lay_out(alloc: Global, project: &Project, plan: &Plan) -> Result<Made, NoMemory>
    requires { IsPlaced project.now plan.now }
{
    placement_is_shared(project, plan);
    let [members, deps_total] = counts(alloc, project, plan)?;
    let layout = layout(alloc, project, plan)?;
    let deps = deps_of(alloc, project, plan, &layout)?;
    Ok(Made {
        members,
        deps_total,
        layout,
        deps,
    })
}

fn make(alloc: Global) -> Result<Made, NoMemory> {
    let project = read(alloc)?;
    match plan(alloc, &project) {
        Ok(plan) => lay_out(alloc, &project, &plan),
        Err(_) => Err(NoMemory),
    }
}

fn has(lay: &LayBundle, members: &[u32], homes: &[&[RefHome]], direct: &[u32]) -> bool {
    lay.members.as_slice() == members
        && have(lay.refs.as_slice(), homes)
        && lay.direct.as_slice() == direct
}

fn have(rows: &[Items<RefHome>], wanted: &[&[RefHome]]) -> bool {
    for (row, homes) in rows.iter().zip(wanted) {
        if row.as_slice() != *homes {
            return false;
        }
    }
    rows.len() == wanted.len()
}

#[test]
fn copies_into_bundles_that_need_each_other(rt: HostRuntime) -> Result<(), Fail> {
    let made = make(rt.alloc())?;
    assert_eq!(rt; made.members, 6);
    assert_eq!(rt; made.deps_total, 4);
    let lays = made.layout.bundles.as_slice();
    assert_eq!(rt; lays.len(), 2);
    let x_homes: [&[RefHome]; 3] = [&[OWN, RefHome::Bundle(1), OWN], &[OWN], &[OWN]];
    assert!(rt; has(&lays[0], &[1, 3, 2], &x_homes, &[1]));
    let y_homes: [&[RefHome]; 3] = [&[OWN], &[OWN], &[RefHome::Bundle(0)]];
    assert!(rt; has(&lays[1], &[0, 3, 2], &y_homes, &[0]));
    for (row, wanted) in made.deps.as_slice().iter().zip([[0, 1], [1, 0]]) {
        assert!(rt; row.as_slice() == wanted.as_slice());
    }
    Ok(())
}
