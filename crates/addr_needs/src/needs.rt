// The row of each bundle's needs.
ghost use Rattle.std.specs.Prelude.{◌≡◌, ◌<◌, ◌^◌, IfOk, length};
ghost use Rattle.std.specs.Ordering.{nat_cmp};
ghost use Rattle.addr_layout.specs.KeptBundles.{HaveDirect};
ghost use Rattle.addr_layout.specs.Layout.{IsLayout};
ghost use Rattle.addr_pack.specs.declared.bundles.Plan.{Plan as PlanOf};
ghost use Rattle.addr_update.specs.Moved.{Update};
ghost use Rattle.addr_walks.specs.Rows.{AreBelow};
ghost use Rattle.addr_walks.specs.Walks.{IsListOf};
ghost use Rattle.addr_needs.specs.Needed.{AreNeeds, AreOfUpdate};
ghost use Rattle.addr_needs.specs.within.Names.{AreNames, numbers_under};
ghost use Rattle.addr_needs.specs.within.Naming.{FileNames, IsRowAt, AreRowsAt};

use crate::names::names_of;
use crate::naming::named_by;
use addr_base::{Digest, Items, NoMemory};
use addr_cab::Cab;
use addr_layout::Layout;
use addr_pack::Plan;
use addr_project::Project;
use std::alloc::Global;
use std::collections::BTreeMap;

/// The numbers of the other bundles that the file of a bundle of the state names, ascending.
fn file_names(
    alloc: Global,
    names: &BTreeMap<Digest, Items<u32>>,
    cabs: &[Cab],
    number: Option<u32>,
    b: u32,
) -> Result<Items<u32>, NoMemory>
    ensures { IfOk result (λ row. (plan : PlanOf) → AreNames plan (length plan.bundles) (numbers_under names.now)
        → IsListOf nat_cmp (FileNames plan cabs.now number b) row) }
{
    match number {
        None => Ok(Items::new(alloc)),
        Some(m) => match cabs.get(m as usize) {
            None => Ok(Items::new(alloc)),
            Some(cab) => {
                let row = named_by(alloc, names, b, cab.objects())?;
                Ok(row)
            }
        },
    }
}

/// The needs of one bundle.
fn row_of(
    alloc: Global,
    layout: &Layout,
    names: &BTreeMap<Digest, Items<u32>>,
    cabs: &[Cab],
    number: Option<u32>,
    b: u32,
    kept: bool,
) -> Result<Items<u32>, NoMemory>
    requires within { b < length layout.now.bundles }
    ensures { IfOk result (λ row. (plan : PlanOf) → AreNames plan (length plan.bundles) (numbers_under names.now)
        → IsRowAt plan layout.now cabs.now number b kept row) }
{
    if kept {
        let row = file_names(alloc, names, cabs, number, b)?;
        return Ok(row);
    }
    let lay = &layout.bundles.as_slice()[b as usize];
    let row = Items::copy_of(alloc, lay.direct.as_slice())?;
    Ok(row)
}

fn rows_of(
    alloc: Global,
    plan: &Plan,
    layout: &Layout,
    numbers: &[Option<u32>],
    cabs: &[Cab],
) -> Result<Items<Items<u32>>, NoMemory>
    requires few { length plan.now.bundles < 2 ^ 32 }
    requires laid { length layout.now.bundles ≡ length plan.now.bundles }
    requires many { length numbers.now ≡ length plan.now.bundles }
    ensures { IfOk result (AreRowsAt plan.now layout.now cabs.now numbers.now (length plan.now.bundles)) }
{
    let names = names_of(alloc, plan)?;
    let bundles = plan.bundles.as_slice();
    let mut rows = Items::new(alloc);
    for b in 0..bundles.len() {
        let row = row_of(
            alloc,
            layout,
            &names,
            cabs,
            numbers[b],
            b as u32,
            bundles[b].kept,
        )?;
        rows.push(row)?;
    }
    Ok(rows)
}

/// For each bundle of an update's placement the numbers of the bundles that it needs, ascending: for a new one its direct list, for
/// a kept one the others whose internal names the references of its file have. `numbers` are those of `old_numbers`, and `cabs` the
/// opened bundles of the state, in its order. A digest for each bundle, a look-up for each reference of the kept files, and a sort of
/// what they name.
pub fn needs_of(
    alloc: Global,
    project: &Project,
    plan: &Plan,
    layout: &Layout,
    numbers: &[Option<u32>],
    cabs: &[Cab],
) -> Result<Items<Items<u32>>, NoMemory>
    requires few { length plan.now.bundles < 2 ^ 32 }
    requires laid { IsLayout project.now plan.now layout.now }
    requires many { length numbers.now ≡ length plan.now.bundles }
    ensures direct { IfOk result (HaveDirect plan.now layout.now) }
    ensures below { IfOk result (λ rows. AreBelow rows (length rows)) }
    // What they are of each update whose placement it is.
    ensures needs { IfOk result (λ rows. (u : Update) → AreOfUpdate u project.now plan.now numbers.now cabs.now
        → AreNeeds u plan.now rows) }
{
    let rows = rows_of(alloc, plan, layout, numbers, cabs)?;
    Ok(rows)
}
