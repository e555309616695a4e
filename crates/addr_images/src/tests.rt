// A worked example from outside: two bundles of remote groups, with what is written for them.
ghost use Rattle.std.specs.Prelude.{◌<◌, length, IfOk};
ghost use Rattle.addr_layout.specs.Layout.{IsLayout};
ghost use Rattle.addr_pack.specs.LongNames.{NamesFit};
ghost use Rattle.addr_pack.specs.Placement.{IsPlaced};
ghost use Rattle.addr_images.specs.States.{AreBundleRows, IsBundleRow};

use crate::{
    bundle_bytes, catalogue_of, file_of, layout_within, members_within, plan_within, row_of,
    side_of, state_of, update_within,
};
use addr_base::{Depot, Items, MemDepot, NoMemory, digest};
use addr_catalog::read_catalog;
use addr_layout::{Layout, direct_closes, placement_is_shared};
use addr_locate::BundleRow;
use addr_pack::{Plan, name_laws};
use addr_project::Project;
use addr_state::{read_state, write_state};
use std::alloc::Global;
use std::test::Fail;

/// What the key `level2` needs: G4 refers to G9 and to the entry G5, G9 to Gb, G5 to Ga; Gc to nothing.
const LEVEL: &str = "\
[[variable]]\nname = 'Host'\nvalue = 'http://h'\n\
[profile]\nremote = '[Host]/remote'\n\
[[group]]\nname = 'Levels'\nmode = 'separate'\nremote = true\n\
[[group]]\nname = 'Skins'\nmode = 'label'\nremote = true\nfixed = true\n\
[[asset]]\nguid = '00000000000000000000000000000004'\ntype = 'T'\nfile = 'd'\nrefs = ['00000000000000000000000000000009', '00000000000000000000000000000005']\n\
[[asset]]\nguid = '00000000000000000000000000000005'\ntype = 'T'\nfile = 'd'\nrefs = ['0000000000000000000000000000000a']\n\
[[asset]]\nguid = '00000000000000000000000000000009'\ntype = 'T'\nfile = 'd'\nrefs = ['0000000000000000000000000000000b']\n\
[[asset]]\nguid = '0000000000000000000000000000000a'\ntype = 'T'\nfile = 'd'\n\
[[asset]]\nguid = '0000000000000000000000000000000b'\ntype = 'T'\nfile = 'd'\n\
[[asset]]\nguid = '0000000000000000000000000000000c'\ntype = 'T'\nfile = 'd'\n\
[[entry]]\nguid = '00000000000000000000000000000004'\ngroup = 'Levels'\naddress = 'level2'\n\
[[entry]]\nguid = '00000000000000000000000000000005'\ngroup = 'Skins'\naddress = 'skin_red'\nlabels = ['red']\n\
[[entry]]\nguid = '0000000000000000000000000000000c'\ngroup = 'Skins'\naddress = 'skin_old'\nlabels = ['red']\n";

/// A refusal of the project ends as want of memory.
fn read(alloc: Global) -> Result<Project, NoMemory> {
    let mut depot = MemDepot::new(Vec::new(alloc), Vec::new(alloc));
    if depot
        .put(alloc, "F/project.toml", LEVEL.as_bytes())
        .is_err()
        || depot.put(alloc, "F/d", b"D").is_err()
    {
        return Err(NoMemory);
    }
    match Project::read(alloc, &mut depot, "F") {
        Ok(project) => Ok(project),
        Err(_) => Err(NoMemory),
    }
}

/// The row of a bundle, as a build makes it.
fn row_at(
    alloc: Global,
    project: &Project,
    plan: &Plan,
    layout: &Layout,
    b: usize,
) -> Result<BundleRow, NoMemory>
    requires within { b < length plan.now.bundles }
    requires placed { IsPlaced project.now plan.now }
    requires laid { IsLayout project.now plan.now layout.now }
    ensures { IfOk result (IsBundleRow project.now plan.now b) }
{
    name_laws(project);
    placement_is_shared(project, plan);
    let bundle = &plan.bundles.as_slice()[b];
    let file = file_of(alloc, project, plan, layout, b)?;
    let remote = side_of(project, bundle);
    let row = row_of(alloc, project, bundle, remote, &file)?;
    Ok(row)
}

fn rows_of(
    alloc: Global,
    project: &Project,
    plan: &Plan,
    layout: &Layout,
) -> Result<Items<BundleRow>, NoMemory>
    requires placed { IsPlaced project.now plan.now }
    requires laid { IsLayout project.now plan.now layout.now }
    ensures { IfOk result (AreBundleRows project.now plan.now) }
{
    let mut rows = Items::new(alloc);
    for b in 0..plan.bundles.len() {
        let row = row_at(alloc, project, plan, layout, b)?;
        rows.push(row)?;
    }
    Ok(rows)
}

/// Whether the placement would do for an update too.
fn is_within(
    alloc: Global,
    project: &Project,
    plan: &Plan,
    layout: &Layout,
) -> Result<bool, NoMemory>
    requires placed { IsPlaced project.now plan.now }
    requires laid { IsLayout project.now plan.now layout.now }
{
    placement_is_shared(project, plan);
    direct_closes(project, plan, layout);
    let direct = layout.direct(alloc)?;
    let Ok(()) = members_within(alloc, project, plan) else {
        return Ok(false);
    };
    let within = update_within(alloc, project, plan, layout, direct.as_slice());
    Ok(within.is_ok())
}

/// What is made for a placement: the sizes of all files together and of the two bundles, the state, and the catalogue; and
/// whether it keeps to the limits of an update.
#[derive(Drop)]
struct Made {
    within: bool,
    bytes: u64,
    rows: Items<BundleRow>,
    state: Vec<u8>,
    catalogue: Vec<u8>,
}

fn state_bytes(
    alloc: Global,
    project: &Project,
    plan: &Plan,
    layout: &Layout,
    rows: &[BundleRow],
) -> Result<Vec<u8>, NoMemory>
    requires placed { IsPlaced project.now plan.now }
    requires fit { NamesFit project.now }
    requires laid { IsLayout project.now plan.now layout.now }
    requires rows { AreBundleRows project.now plan.now rows.now }
{
    let state = state_of(alloc, project, plan, layout, rows)?;
    let bytes = write_state(alloc, &state)?;
    Ok(bytes)
}

fn catalogue_bytes(
    alloc: Global,
    project: &Project,
    plan: &Plan,
    layout: &Layout,
    state: &[u8],
) -> Result<Vec<u8>, NoMemory>
    requires placed { IsPlaced project.now plan.now }
    requires laid { IsLayout project.now plan.now layout.now }
{
    let rows = rows_of(alloc, project, plan, layout)?;
    let bytes = catalogue_of(alloc, project, plan, layout, rows, digest(state))?;
    Ok(bytes)
}

fn make_in(alloc: Global, project: &Project, plan: &Plan, layout: &Layout) -> Result<Made, NoMemory>
    requires placed { IsPlaced project.now plan.now }
    requires fit { NamesFit project.now }
    requires laid { IsLayout project.now plan.now layout.now }
{
    placement_is_shared(project, plan);
    let within = is_within(alloc, project, plan, layout)?;
    let bytes = bundle_bytes(alloc, project, plan, layout)?;
    let rows = rows_of(alloc, project, plan, layout)?;
    let state = state_bytes(alloc, project, plan, layout, rows.as_slice())?;
    let catalogue = catalogue_bytes(alloc, project, plan, layout, &state)?;
    Ok(Made {
        within,
        bytes,
        rows,
        state,
        catalogue,
    })
}

fn make(alloc: Global) -> Result<Made, NoMemory> {
    let project = read(alloc)?;
    let Ok(plan) = plan_within(alloc, &project) else {
        return Err(NoMemory);
    };
    let Ok(layout) = layout_within(alloc, &project, &plan) else {
        return Err(NoMemory);
    };
    make_in(alloc, &project, &plan, &layout)
}

#[test]
fn two_bundles_that_one_key_needs(rt: HostRuntime) -> Result<(), Fail> {
    let made = make(rt.alloc())?;
    assert!(rt; made.within);
    assert_eq!(rt; made.bytes, 776);
    let sizes = match made.rows.as_slice() {
        [level, red] => [level.size, red.size],
        _ => [0, 0],
    };
    assert_eq!(rt; sizes, [416, 360]);
    let state = read_state(rt.alloc(), &made.state).ok().ok_or("a state")?;
    assert_eq!(rt; state.fixed.len(), 1);
    let catalogue = read_catalog(rt.alloc(), &made.catalogue)
        .ok()
        .ok_or("a catalogue")?;
    assert_eq!(rt; catalogue.locator.bundles().len(), 2);
    assert_eq!(rt; catalogue.locator.assets().len(), 3);
    assert!(rt; catalogue.state == Some(digest(&made.state)));
    Ok(())
}
