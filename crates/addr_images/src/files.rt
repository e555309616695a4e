// The file of a bundle: its objects as a table and data, in a bundle file of two nodes.
ghost use Rattle.std.specs.Prelude.{◌<◌, ◌^◌, length, IfOk};
ghost use Rattle.addr_layout.specs.KeptBundles.{IsNewAt};
ghost use Rattle.addr_layout.specs.Layout.{IsLayout};
ghost use Rattle.addr_release.specs.Built.{IsFileOf};
ghost use Rattle.hex.specs.Hex.{IsBytes};

use crate::images::objects_told;
use addr_base::NoMemory;
use addr_cab::{internal_name, write_cab_file};
use addr_layout::{Layout, references_are_led};
use addr_pack::Plan;
use addr_project::Project;
use std::alloc::Global;

/// What the types say of a file's bytes. Nothing runs.
fn are_bytes(file: &[u8])
    ensures bytes { IsBytes file.now }
    ensures small { length file.now < 2 ^ 63 }
{
    let _len = file.len();
}

/// The file of a bundle that is written anew. Copies each member's bytes once, and once more into the file; a reference that leads to another
/// bundle costs a digest of that bundle's name. The limits of a project keep the file below 2^29 bytes.
pub fn file_of(
    alloc: Global,
    project: &Project,
    plan: &Plan,
    layout: &Layout,
    b: usize,
) -> Result<Vec<u8>, NoMemory>
    requires new { IsNewAt plan.now b }
    requires laid { IsLayout project.now plan.now layout.now }
    ensures { IfOk result (λ file. IsFileOf project.now plan.now b file.items) }
{
    project.kept();
    references_are_led(project, plan, layout);
    let bundle = &plan.bundles.as_slice()[b];
    let lay = &layout.bundles.as_slice()[b];
    let objects = objects_told(alloc, project, plan, lay)?;
    let name = internal_name(bundle.name.as_str());
    let file = write_cab_file(alloc, project.version(), name, &objects)?;
    are_bytes(file.as_slice());
    Ok(file)
}
