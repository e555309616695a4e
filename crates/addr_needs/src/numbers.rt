// The numbers of the state's bundles that a placement keeps, found by halving in the state's order of names.
ghost use Rattle.std.specs.Prelude.{◌≡◌, ◌<◌, ◌^◌, ◌↔◌, ℕ, IfOk, Some, length, map};
ghost use Rattle.std.specs.Cmp.Lexicographic.{slice_cmp};
ghost use Rattle.std.specs.List.Sorted.{IsStrictlySortedBy};
ghost use Rattle.std.specs.Ordering.{nat_cmp};
ghost use Rattle.addr_state.specs.Sound.{IsSound};
ghost use Rattle.addr_needs.specs.Numbers.{AreNumbers, IsNamedAt, IsNumberOf};

use addr_base::{Items, NoMemory};
use addr_pack::{Plan, PlanBundle};
use addr_state::{State, StateBundle};
use std::alloc::Global;
use std::cmp::Ordering;

fn order(old: &StateBundle, name: &[u8]) -> Ordering
    ensures { result ≡ slice_cmp nat_cmp old.now.name name.now }
{
    old.name.as_bytes().cmp(name)
}

fn search(bundles: &[StateBundle], name: &[u8]) -> Option<u32>
    requires few { length bundles.now < 2 ^ 32 }
    requires rising { IsStrictlySortedBy (slice_cmp nat_cmp) (map (λ b. b.name) bundles.now) }
    ensures { (m : ℕ) → (result ≡ Some m) ↔ IsNamedAt bundles.now m name.now }
{
    match bundles.binary_search_by(|old| order(old, name)) {
        Ok(m) => Some(m as u32),
        Err(_) => None,
    }
}

fn number_of(bundles: &[StateBundle], bundle: &PlanBundle) -> Option<u32>
    requires few { length bundles.now < 2 ^ 32 }
    requires rising { IsStrictlySortedBy (slice_cmp nat_cmp) (map (λ b. b.name) bundles.now) }
    ensures { IsNumberOf bundles.now bundle.now result }
{
    if bundle.kept {
        search(bundles, bundle.name.as_bytes())
    } else {
        None
    }
}

/// For each bundle of a placement the number of the state's bundle with its name, where it is kept; and None where it is new, or
/// the state has no such name. A search by halving for each kept bundle.
pub fn old_numbers(
    alloc: Global,
    plan: &Plan,
    state: &State,
) -> Result<Items<Option<u32>>, NoMemory>
    requires sound { IsSound state.now }
    ensures many { IfOk result (λ numbers. length numbers ≡ length plan.now.bundles) }
    ensures numbers { IfOk result (AreNumbers state.now plan.now) }
{
    let olds = state.bundles.as_slice();
    let mut numbers = Items::new(alloc);
    for bundle in plan.bundles.as_slice() {
        numbers.push(number_of(olds, bundle))?;
    }
    Ok(numbers)
}
