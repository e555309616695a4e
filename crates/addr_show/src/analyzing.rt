// The text of `analyze` for a folder. The limits of a plan are tested before a layout is made.
ghost use Rattle.std.specs.Prelude.{IfSome};
ghost use Rattle.addr_base.specs.Files.{SameStore};
ghost use Rattle.addr_show.specs.Analyzing.{AnalyzeRose, Analyzes, IsAnalyzed};

use crate::error::AnalyzeErr;
use crate::texts::analyze_text;
use addr_analyze::{duplicates, wasted};
use addr_base::{Depot, Text};
use addr_images::plan_within;
use addr_layout::{layout, placement_is_shared};
use addr_project::Project;
use std::alloc::Global;

/// The duplicates of the folder's project as text. The folder is named without a `/` at its end.
pub fn analyze<D: Depot>(alloc: Global, depot: &mut D, folder: &str) -> Result<Text, AnalyzeErr>
    ensures told { IfSome (D.now depot.old).files (λ files. Analyzes files folder.now result) }
    ensures same { SameStore (D.now depot.old) (D.now depot.new) }
    ensures cause { AnalyzeRose (D.now depot.old).faults (D.now depot.new).faults result }
{
    let project = Project::read(alloc, depot, folder)?;
    analyzed(alloc, &project)
}

/// The text of a project's duplicates, or the first limit that is passed.
fn analyzed(alloc: Global, project: &Project) -> Result<Text, AnalyzeErr>
    ensures { IsAnalyzed project.now result }
{
    let plan = plan_within(alloc, project)?;
    placement_is_shared(project, &plan);
    let layout = layout(alloc, project, &plan)?;
    let found = duplicates(alloc, project, &plan, &layout)?;
    let wasted = wasted(project, &plan, found.as_slice());
    let text = analyze_text(alloc, found.as_slice(), wasted)?;
    Ok(text)
}
