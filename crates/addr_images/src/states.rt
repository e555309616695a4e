// The content state of a release: what it says of each bundle, and which groups are fixed.
ghost use Rattle.std.specs.Prelude.{◌≡◌, ◌<◌, length, IfOk};
ghost use Rattle.addr_layout.specs.Layout.{IsFull, IsLayout};
ghost use Rattle.addr_pack.specs.LongNames.{NamesFit};
ghost use Rattle.addr_pack.specs.Placement.{IsPlaced};
ghost use Rattle.addr_state.specs.Sound.{IsSound};
ghost use Rattle.addr_images.specs.States.{AreBundleRows, IsStateFor};
ghost use Rattle.addr_images.specs.within.Stated.{AreEntryGuids, AreEntryMarks, AreMemberGuids, AreStated, HasTexts, IsStated};

use crate::fixed::fixed_of;
use crate::guids::{guids_of, marked};
use crate::marks::entry_marks;
use crate::rows::side_of;
use addr_base::{Guid, Items, NoMemory, Text};
use addr_layout::{LayBundle, Layout, placement_is_shared};
use addr_locate::BundleRow;
use addr_pack::{Plan, PlanBundle, name_laws, names_are_plain};
use addr_project::Project;
use addr_state::{State, StateBundle, side_file};
use std::alloc::Global;

/// The GUIDs of a bundle, ascending: those of its entries, and those of all its members.
#[derive(Drop)]
struct Guids {
    entries: Items<Guid>,
    objects: Items<Guid>,
}

fn guids_stated(
    alloc: Global,
    project: &Project,
    plan: &Plan,
    marks: &[bool],
    b: usize,
    lay: &LayBundle,
) -> Result<Guids, NoMemory>
    requires marks { AreEntryMarks project.now marks.now }
    requires full { IsFull project.now plan.now b lay.now }
    requires placed { IsPlaced project.now plan.now }
    ensures entries { IfOk result (λ guids. AreEntryGuids project.now plan.now b guids.entries) }
    ensures objects { IfOk result (λ guids. AreMemberGuids project.now plan.now b guids.objects) }
{
    project.kept();
    placement_is_shared(project, plan);
    let members = lay.members.as_slice();
    let objects = guids_of(alloc, project, members)?;
    let marked = marked(alloc, marks, members)?;
    let entries = guids_of(alloc, project, marked.as_slice())?;
    Ok(Guids { entries, objects })
}

/// What is said of a bundle with these GUIDs.
fn bundle_stated(
    alloc: Global,
    project: &Project,
    bundle: &PlanBundle,
    row: &BundleRow,
    guids: Guids,
) -> Result<StateBundle, NoMemory>
    requires { bundle.now.group < length project.now.groups }
    ensures { IfOk result (HasTexts project.now bundle.now row.now guids.entries guids.objects) }
{
    let remote = side_of(project, bundle);
    let file = side_file(alloc, remote, bundle.name.as_str(), row.digest)?;
    let name = Text::copy_of(alloc, bundle.name.as_str())?;
    let group = Text::copy_of(alloc, project.groups()[bundle.group as usize].name.as_str())?;
    let id = Text::copy_of(alloc, row.id.as_str())?;
    let Guids { entries, objects } = guids;
    Ok(StateBundle {
        name,
        file,
        id,
        group,
        digest: row.digest,
        size: row.size,
        entries,
        objects,
    })
}

fn stated_at(
    alloc: Global,
    project: &Project,
    plan: &Plan,
    layout: &Layout,
    marks: &[bool],
    b: usize,
    row: &BundleRow,
) -> Result<StateBundle, NoMemory>
    requires within { b < length plan.now.bundles }
    requires placed { IsPlaced project.now plan.now }
    requires laid { IsLayout project.now plan.now layout.now }
    requires marks { AreEntryMarks project.now marks.now }
    ensures { IfOk result (IsStated project.now plan.now b row.now) }
{
    project.kept();
    placement_is_shared(project, plan);
    name_laws(project);
    let bundle = &plan.bundles.as_slice()[b];
    let lay = &layout.bundles.as_slice()[b];
    let guids = guids_stated(alloc, project, plan, marks, b, lay)?;
    let stated = bundle_stated(alloc, project, bundle, row, guids)?;
    Ok(stated)
}

fn bundles_stated(
    alloc: Global,
    project: &Project,
    plan: &Plan,
    layout: &Layout,
    rows: &[BundleRow],
) -> Result<Items<StateBundle>, NoMemory>
    requires placed { IsPlaced project.now plan.now }
    requires laid { IsLayout project.now plan.now layout.now }
    requires as_many { length rows.now ≡ length plan.now.bundles }
    ensures as_many { IfOk result (λ stated. length stated ≡ length rows.now) }
    ensures each { IfOk result (AreStated project.now plan.now rows.now) }
{
    let marks = entry_marks(alloc, project)?;
    let mut stated = Items::new(alloc);
    for (b, row) in rows.iter().enumerate() {
        stated.push(stated_at(alloc, project, plan, layout, &marks, b, row)?)?;
    }
    Ok(stated)
}

/// The content state of a release with these rows. A state is made once per release; its size is that of the layout's lists.
pub fn state_of(
    alloc: Global,
    project: &Project,
    plan: &Plan,
    layout: &Layout,
    rows: &[BundleRow],
) -> Result<State, NoMemory>
    requires placed { IsPlaced project.now plan.now }
    requires fit { NamesFit project.now }
    requires laid { IsLayout project.now plan.now layout.now }
    requires rows { AreBundleRows project.now plan.now rows.now }
    ensures told { IfOk result (IsStateFor project.now plan.now rows.now) }
    // It keeps the reader's rules, so that what is written for it reads back as it was.
    ensures sound { IfOk result IsSound }
{
    project.kept();
    name_laws(project);
    names_are_plain(project);
    placement_is_shared(project, plan);
    let bundles = bundles_stated(alloc, project, plan, layout, rows)?;
    let fixed = fixed_of(alloc, project)?;
    Ok(State { bundles, fixed })
}
