// Planning: the entries in order are put into classes by their names, and each class becomes a bundle. Two entries share a
// bundle exactly where their names are equal, so that no entry is compared with another one.
ghost use Rattle.std.specs.Prelude.{◌≡◌, ◌⊎◌, ℕ, List, length, map, Some, IfOk, IfErr, OnOk, string_bytes};
ghost use Rattle.std.specs.BTreeMap.{get_by_text, IsOrdered};
ghost use Rattle.std.specs.String.{string_cmp};
ghost use Rattle.addr_pack.specs.Classes.{AreClasses, IsAdded, bundle_of};
ghost use Rattle.addr_pack.specs.LongNames.{NamesFit, Refuses};
ghost use Rattle.addr_pack.specs.Placement.{IsPlaced};

use crate::bundles::{Plan, PlanBundle};
use crate::class::Class;
use crate::error::PlanErr;
use crate::naming::entry_name;
use addr_base::{Items, NoMemory, Text};
use addr_project::{Limit, Project};
use std::alloc::Global;
use std::collections::BTreeMap;

/// The bundles of a full build. Takes time as sorting the entries by their names does, and memory as these names.
pub fn plan(alloc: Global, project: &Project) -> Result<Plan, PlanErr>
    ensures placed { IfOk result (IsPlaced project.now) }
    ensures fit { IfOk result (λ _. NamesFit project.now) }
    ensures refused { IfErr result (Refuses project.now) }
{
    project.kept();
    let classes = classes_of(alloc, project)?;
    let bundles = bundles_of(alloc, classes)?;
    Ok(Plan { bundles })
}

fn classes_of(alloc: Global, project: &Project) -> Result<BTreeMap<String, Class>, PlanErr>
    ensures classes { IfOk result (AreClasses project.now (length project.now.entries)) }
    ensures fit { IfOk result (λ _. NamesFit project.now) }
    ensures refused { IfErr result (Refuses project.now) }
{
    project.kept();
    let entries = project.entries();
    let mut classes = BTreeMap::new(alloc);
    for (row, entry) in entries.iter().enumerate() {
        let name = entry_name(alloc, project, entry)?;
        let length = name.len() as u64;
        if length > Limit::BundleName.most() {
            return Err(PlanErr::NameTooLong {
                row: row as u32,
                length,
            });
        }
        add_entry(alloc, &mut classes, name, entry.group, row as u32)?;
    }
    Ok(classes)
}

/// Puts an entry into the class of its name. After want of memory the classes are of no use.
fn add_entry(
    alloc: Global,
    classes: &mut BTreeMap<String, Class>,
    name: String,
    group: u32,
    row: u32,
) -> Result<(), NoMemory>
    ensures { OnOk result (IsAdded (string_bytes name) group row classes.old classes.new) }
{
    match classes.get_mut(name.as_str()) {
        Some(class) => class.entries.push(row)?,
        None => {
            let mut entries = Items::new(alloc);
            entries.push(row)?;
            classes.insert(name, Class { group, entries })?;
        }
    }
    Ok(())
}

fn bundles_of(
    alloc: Global,
    classes: BTreeMap<String, Class>,
) -> Result<Items<PlanBundle>, NoMemory>
    ensures bundles { IfOk result (λ bundles. bundles ≡ map bundle_of classes.entries) }
    ensures ordered { IsOrdered string_cmp classes }
{
    let mut bundles = Items::new(alloc);
    for (name, class) in classes {
        let Class { group, entries } = class;
        let name = Text::from_string(name);
        bundles.push(PlanBundle {
            name,
            group,
            kept: false,
            entries,
        })?;
    }
    Ok(bundles)
}
