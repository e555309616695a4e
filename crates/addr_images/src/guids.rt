// The GUIDs of a bundle's members and of its entries, in the order of the members.
ghost use Rattle.std.specs.Prelude.{◌≡◌, ◌<◌, length, map, IfOk};
ghost use Rattle.std.specs.List.{All, filter};
ghost use Rattle.addr_images.specs.within.Stated.{guid_at, is_marked};

use addr_base::{Guid, Items, NoMemory};
use addr_project::Project;
use std::alloc::Global;

/// The GUIDs of some assets.
pub fn guids_of(alloc: Global, project: &Project, members: &[u32]) -> Result<Items<Guid>, NoMemory>
    requires { All (λ n. n < length project.now.assets) members.now }
    ensures { IfOk result (λ guids. guids ≡ map (guid_at project.now) members.now) }
{
    let mut guids = Items::new(alloc);
    for n in members {
        guids.push(project.assets()[*n as usize].guid)?;
    }
    Ok(guids)
}

/// Those of some numbers that are marked.
pub fn marked(alloc: Global, marks: &[bool], members: &[u32]) -> Result<Items<u32>, NoMemory>
    ensures { IfOk result (λ found. found ≡ filter (is_marked marks.now) members.now) }
{
    let mut found = Items::new(alloc);
    for n in members {
        if is_marked(marks, *n) {
            found.push(*n)?;
        }
    }
    Ok(found)
}

fn is_marked(marks: &[bool], n: u32) -> bool
    ensures { result ≡ is_marked marks.now n }
{
    match marks.get(n as usize) {
        Some(mark) => *mark,
        None => false,
    }
}
