// Which other bundles of a placement the references of a file name.
ghost use Rattle.std.specs.Prelude.{◌≡◌, ◌≢◌, IfOk, OnOk, length};
ghost use Rattle.std.specs.Ordering.{nat_cmp};
ghost use Rattle.addr_base.specs.Ids.{Are16Bytes};
ghost use Rattle.addr_pack.specs.declared.bundles.Plan.{Plan as PlanOf};
ghost use Rattle.addr_walks.specs.Walks.{IsListOf};
ghost use Rattle.addr_needs.specs.within.Names.{AreNames, numbers_under};
ghost use Rattle.addr_needs.specs.within.Naming.{AddsSet, AnyOf, NamesOther, ObjectNames};

use addr_base::{Digest, Home, Items, NoMemory, RefTo};
use addr_cab::ObjectRow;
use std::alloc::Global;
use std::collections::BTreeMap;

/// What the type says of a digest's bytes. Nothing runs.
fn sixteen(name: Digest)
    ensures { Are16Bytes name.0 }
{
    let bytes: &[u8] = &name.0;
    let _len = bytes.len();
}

/// Adds a number where it is another one than `b`.
fn add_other(row: &mut Vec<u32>, b: u32, c: u32) -> Result<(), NoMemory>
    ensures { OnOk result (AddsSet row.old.items (λ d. (b ≢ d) × (c ≡ d)) row.new.items) }
{
    if c != b {
        row.push(c)?;
    }
    Ok(())
}

fn add_others(row: &mut Vec<u32>, b: u32, numbers: &[u32]) -> Result<(), NoMemory>
    ensures { OnOk result (AddsSet row.old.items (AnyOf numbers.now (λ c d. (b ≢ d) × (c ≡ d))) row.new.items) }
{
    for c in numbers {
        add_other(row, b, *c)?;
    }
    Ok(())
}

/// Adds the other bundles that a home names.
fn add_home(
    row: &mut Vec<u32>,
    names: &BTreeMap<Digest, Items<u32>>,
    b: u32,
    home: Home,
) -> Result<(), NoMemory>
    ensures { OnOk result ((plan : PlanOf) → AreNames plan (length plan.bundles) (numbers_under names.now)
        → AddsSet row.old.items (NamesOther plan b home) row.new.items) }
{
    match home {
        Home::Own => Ok(()),
        Home::Other(name) => {
            sixteen(name);
            match names.get(&name) {
                None => Ok(()),
                Some(numbers) => {
                    add_others(row, b, numbers.as_slice())?;
                    Ok(())
                }
            }
        }
    }
}

fn add_refs(
    row: &mut Vec<u32>,
    names: &BTreeMap<Digest, Items<u32>>,
    b: u32,
    refs: &[RefTo],
) -> Result<(), NoMemory>
    ensures { OnOk result ((plan : PlanOf) → AreNames plan (length plan.bundles) (numbers_under names.now)
        → AddsSet row.old.items (AnyOf refs.now (λ r. NamesOther plan b r.home)) row.new.items) }
{
    for r in refs {
        add_home(row, names, b, r.home)?;
    }
    Ok(())
}

/// The numbers of the other bundles that the references of objects name, ascending. A look-up and a number for each reference, and
/// a sort of these.
pub(crate) fn named_by(
    alloc: Global,
    names: &BTreeMap<Digest, Items<u32>>,
    b: u32,
    objects: &[ObjectRow],
) -> Result<Items<u32>, NoMemory>
    ensures { IfOk result (λ row. (plan : PlanOf) → AreNames plan (length plan.bundles) (numbers_under names.now)
        → IsListOf nat_cmp (ObjectNames plan b objects.now) row) }
{
    let mut row: Vec<u32> = Vec::new(alloc);
    for object in objects {
        add_refs(&mut row, names, b, object.refs.as_slice())?;
    }
    row.sort_unstable();
    row.dedup();
    Ok(Items::from_vec(row))
}
