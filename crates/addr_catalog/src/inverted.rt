// Lists of numbers turned round, in one pass over all lists: what stands in none of them is never looked for. A catalogue's
// buckets say which entries a key has, and here each entry is told its keys; written rows say their keys, and each key its rows.
ghost use Rattle.std.specs.Prelude.{◌≡◌, ◌<◌, ◌^◌, ◌++◌, ◌∷◌, [], ℕ, List, map, length, IfOk, OnOk, replicate};
ghost use Rattle.std.specs.List.{range_with_len, AllByRecursion};
ghost use Rattle.addr_catalog.specs.Inverted.{is_among, lists_with, AreNumbersBelow, with_list};

use addr_base::{Items, NoMemory};
use std::alloc::Global;

pub fn is_among(numbers: &[u32], number: u32) -> bool
    ensures { result ≡ is_among numbers.now number }
{
    numbers.iter().any(|n| *n == number)
}

/// Appends a number to a list that ascends, where it doesn't stand at its end.
fn push_once(numbers: &mut Items<u32>, number: u32) -> Result<(), NoMemory>
    ensures fresh { AreNumbersBelow number numbers.old → OnOk result (numbers.new ≡ numbers.old ++ number ∷ []) }
    ensures again { (before : List ℕ) → numbers.old ≡ before ++ number ∷ [] → OnOk result (numbers.new ≡ numbers.old) }
{
    if numbers.as_slice().last() == Some(&number) {
        return Ok(());
    }
    numbers.push(number)
}

/// Appends the number of a list to what each of its numbers has.
fn add_list(lists: &mut Vec<Items<u32>>, number: u32, list: &[u32]) -> Result<(), NoMemory>
    requires within { AreNumbersBelow (length lists.old.items) list.now }
    ensures same { length lists.new.items ≡ length lists.old.items }
    ensures added { (numbers : ℕ → List ℕ)
        → lists.old.items ≡ map numbers (range_with_len 0 (length lists.old.items))
        → ((n : ℕ) → AreNumbersBelow number (numbers n))
        → OnOk result
        (lists.new.items ≡ map (with_list number list.now numbers) (range_with_len 0 (length lists.old.items))) }
{
    for n in list {
        push_once(&mut lists[*n as usize], number)?;
    }
    Ok(())
}

fn empty_lists(alloc: Global, count: usize) -> Result<Vec<Items<u32>>, NoMemory>
    ensures { IfOk result (λ lists. lists.items ≡ replicate count []) }
{
    let mut lists = Vec::new(alloc);
    for _i in 0..count {
        lists.push(Items::new(alloc))?;
    }
    Ok(lists)
}

/// For each number below a count, which of the lists have it, ascending.
pub fn invert(
    alloc: Global,
    lists: &[Items<u32>],
    count: usize,
) -> Result<Vec<Items<u32>>, NoMemory>
    requires few { length lists.now < 2 ^ 32 }
    requires within { AllByRecursion (AreNumbersBelow count) lists.now }
    ensures { IfOk result (λ found. found.items ≡ map (lists_with lists.now) (range_with_len 0 count)) }
{
    let mut found = empty_lists(alloc, count)?;
    for (k, list) in lists.iter().enumerate() {
        add_list(&mut found, k as u32, list.as_slice())?;
    }
    Ok(found)
}
