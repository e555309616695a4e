// Which bundle each entry of a project stands in: an array by the numbers of entries, made in one walk over the bundles.
ghost use Rattle.std.specs.Prelude.{◌≡◌, ◌<◌, ◌^◌, length, vec_len, Some, None, slice_index_or, IfOk};
ghost use Rattle.std.specs.List.{All};
ghost use Rattle.addr_layout.specs.Members.{IsShared};
ghost use Rattle.addr_layout.specs.Owners.{AreOwners, Replaces};
ghost use Rattle.addr_pack.specs.Placement.{InBundle};
ghost use Rattle.addr_walks.specs.Rows.{AreBelow};
ghost use Rattle.addr_images.specs.within.Owners.{AreOwnersIn, entry_rows};

use addr_base::NoMemory;
use addr_pack::Plan;
use addr_project::Project;
use std::alloc::Global;

/// Beside each entry the number of its bundle.
pub fn owners_of(
    alloc: Global,
    project: &Project,
    plan: &Plan,
) -> Result<Vec<Option<u32>>, NoMemory>
    requires few { length plan.now.bundles < 2 ^ 31 }
    requires shared { IsShared project.now plan.now }
    ensures { IfOk result (λ owners. AreOwnersIn project.now plan.now owners.items) }
{
    let mut owners = vec![in alloc; None; project.entries().len()]?;
    for (b, bundle) in plan.bundles.as_slice().iter().enumerate() {
        own_all(&mut owners, bundle.entries.as_slice(), b as u32);
    }
    Ok(owners)
}

fn own_all(owners: &mut Vec<Option<u32>>, entries: &[u32], b: u32)
    requires { All (λ x. x < vec_len owners.old) entries.now }
    ensures len { vec_len owners.new ≡ vec_len owners.old }
    ensures replaces { Replaces owners.old.items entries.now b owners.new.items }
{
    for x in entries.iter() {
        owners[*x as usize] = Some(b);
    }
}

/// The bundle of an entry.
pub fn owner_at(project: &Project, plan: &Plan, owners: &[Option<u32>], x: usize) -> u32
    requires owners { AreOwnersIn project.now plan.now owners.now }
    requires within { x < length project.now.entries }
    ensures { InBundle plan.now result x }
{
    match owners[x] {
        Some(b) => b,
        None => unreachable!(),
    }
}
