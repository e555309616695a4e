// The bundles of a placement by their internal names. Several bundles may have one, so each name has all of its numbers.
ghost use Rattle.std.specs.Prelude.{◌≡◌, ◌<◌, ◌^◌, IfOk, OnOk, length};
ghost use Rattle.addr_needs.specs.within.Names.{AddsNumber, AreNames, numbers_under};

use addr_base::{Digest, Items, NoMemory};
use addr_cab::internal_name;
use addr_pack::Plan;
use std::alloc::Global;
use std::collections::BTreeMap;

/// Puts one more number under a name. After want of memory the names are of no use.
fn add_number(
    alloc: Global,
    names: &mut BTreeMap<Digest, Items<u32>>,
    name: Digest,
    b: u32,
) -> Result<(), NoMemory>
    ensures { OnOk result (AddsNumber (numbers_under names.old) name b (numbers_under names.new)) }
{
    match names.get_mut(&name) {
        Some(numbers) => numbers.push(b)?,
        None => {
            let mut numbers = Items::new(alloc);
            numbers.push(b)?;
            names.insert(name, numbers)?;
        }
    }
    Ok(())
}

/// The numbers of all bundles with each internal name. A digest and a look-up for each bundle.
pub(crate) fn names_of(alloc: Global, plan: &Plan) -> Result<BTreeMap<Digest, Items<u32>>, NoMemory>
    requires few { length plan.now.bundles < 2 ^ 32 }
    ensures { IfOk result (λ names. AreNames plan.now (length plan.now.bundles) (numbers_under names)) }
{
    let mut names = BTreeMap::new(alloc);
    for (b, bundle) in plan.bundles.as_slice().iter().enumerate() {
        let name = internal_name(bundle.name.as_str());
        add_number(alloc, &mut names, name, b as u32)?;
    }
    Ok(names)
}
