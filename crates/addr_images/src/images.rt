// The objects of a bundle: its members, each with the homes of its references told by internal names.
ghost use Rattle.std.specs.Prelude.{◌≡◌, ◌<◌, length, IfOk};
ghost use Rattle.std.specs.List.{AllZip};
ghost use Rattle.addr_images.specs.within.Told.{asset_at, home_told, object_told, objects_told, refs_told, HasHomes};

use addr_base::{Guid, Home, Items, NoMemory, RefTo};
use addr_cab::{ObjectOut, internal_name};
use addr_layout::{LayBundle, RefHome};
use addr_pack::Plan;
use addr_project::Project;
use std::alloc::Global;

/// A home as a file tells it: the own bundle as such, and another one by its internal name.
pub fn home_told(plan: &Plan, home: RefHome) -> Home
    ensures { result ≡ home_told plan.now home }
{
    match home {
        RefHome::Own => Home::Own,
        RefHome::Bundle(c) => match plan.bundles.get(c as usize) {
            Some(bundle) => Home::Other(internal_name(bundle.name.as_str())),
            None => Home::Own,
        },
    }
}

fn refs_told(
    alloc: Global,
    plan: &Plan,
    guids: &[Guid],
    homes: &[RefHome],
) -> Result<Items<RefTo>, NoMemory>
    requires { length homes.now ≡ length guids.now }
    ensures { IfOk result (λ refs. refs ≡ refs_told plan.now guids.now homes.now) }
{
    let mut refs = Items::new(alloc);
    for (k, home) in homes.iter().enumerate() {
        let guid = guids[k];
        let home = home_told(plan, *home);
        refs.push(RefTo { guid, home })?;
    }
    Ok(refs)
}

fn object_told(
    alloc: Global,
    project: &Project,
    plan: &Plan,
    n: u32,
    homes: &[RefHome],
) -> Result<ObjectOut, NoMemory>
    requires within { n < length project.now.assets }
    requires homes { length homes.now ≡ length (asset_at project.now n).refs }
    ensures { IfOk result (λ object. object ≡ object_told project.now plan.now n homes.now) }
{
    let asset = &project.assets()[n as usize];
    let refs = refs_told(alloc, plan, asset.refs.as_slice(), homes)?;
    let bytes = Items::copy_of(alloc, asset.bytes.as_slice())?;
    Ok(ObjectOut {
        guid: asset.guid,
        bytes,
        refs,
    })
}

/// The objects of a bundle, in the order of their GUIDs. Copies each asset's bytes once.
pub fn objects_told(
    alloc: Global,
    project: &Project,
    plan: &Plan,
    lay: &LayBundle,
) -> Result<Vec<ObjectOut>, NoMemory>
    requires { AllZip (HasHomes project.now) lay.now.members lay.now.refs }
    ensures { IfOk result (λ objects. objects.items ≡ objects_told project.now plan.now lay.now) }
{
    let mut objects = Vec::new(alloc);
    let members = lay.members.as_slice();
    for (k, homes) in lay.refs.as_slice().iter().enumerate() {
        let object = object_told(alloc, project, plan, members[k], homes.as_slice())?;
        objects.push(object)?;
    }
    Ok(objects)
}
