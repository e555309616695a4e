// The catalogue's row of a bundle, after its file.
ghost use Rattle.std.specs.Prelude.{◌≡◌, IfOk};
ghost use Rattle.addr_base.specs.Ids.{hex_of};
ghost use Rattle.addr_release.specs.Built.{IsRowOf, fetch_id};
ghost use Rattle.addr_images.specs.Sides.{side_at};

use addr_base::{Digest, NoMemory, Text, digest};
use addr_cab::internal_name;
use addr_locate::BundleRow;
use addr_pack::PlanBundle;
use addr_project::Project;
use addr_state::file_name;
use std::alloc::Global;

/// Whether a bundle is built into the folder of remote bundles: that of the moved entries of an update is, whose group's number
/// is the number of groups.
pub fn side_of(project: &Project, bundle: &PlanBundle) -> bool
    ensures { result ≡ side_at project.now bundle.now.group }
{
    match project.groups().get(bundle.group as usize) {
        Some(group) => group.remote,
        None => true,
    }
}

/// The text of a side, a slash, and the name of a file.
fn id_of(alloc: Global, project: &Project, remote: bool, key: &str) -> Result<Text, NoMemory>
    ensures { IfOk result (λ id. id ≡ fetch_id project.now remote key.now) }
{
    let side = if remote {
        project.remote()
    } else {
        project.local()
    };
    let id = format!(in alloc; "{side}/{key}")?;
    Ok(Text::from_string(id))
}

fn digits_of(alloc: Global, name: Digest) -> Result<Text, NoMemory>
    ensures { IfOk result (λ digits. digits ≡ hex_of name.0) }
{
    let digits = format!(in alloc; "{name}")?;
    Ok(Text::from_string(digits))
}

/// The row of a bundle whose file is at hand. The digest of the file is made here, once.
pub fn row_of(
    alloc: Global,
    project: &Project,
    bundle: &PlanBundle,
    remote: bool,
    file: &[u8],
) -> Result<BundleRow, NoMemory>
    ensures { IfOk result (IsRowOf project.now remote bundle.now file.now) }
{
    let digest = digest(file);
    let key = file_name(alloc, bundle.name.as_str(), digest)?;
    let id = id_of(alloc, project, remote, key.as_str())?;
    let name = digits_of(alloc, internal_name(bundle.name.as_str()))?;
    Ok(BundleRow {
        key,
        size: file.len() as u64,
        digest,
        name,
        id,
    })
}
