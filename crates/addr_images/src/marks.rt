// Which assets are entries: an array by the numbers of assets, made in one walk over the entries.
ghost use Rattle.std.specs.Prelude.{◌≡◌, IfOk};
ghost use Rattle.addr_images.specs.within.Stated.{AreEntryMarks};

use addr_base::NoMemory;
use addr_project::Project;
use std::alloc::Global;

/// Beside each asset whether it is an entry's.
pub fn entry_marks(alloc: Global, project: &Project) -> Result<Vec<bool>, NoMemory>
    ensures { IfOk result (λ marks. AreEntryMarks project.now marks.items) }
{
    project.kept();
    let mut marks = vec![in alloc; false; project.assets().len()]?;
    for entry in project.entries().iter() {
        marks[entry.asset as usize] = true;
    }
    Ok(marks)
}
