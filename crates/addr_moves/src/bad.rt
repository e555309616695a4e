// Which places need a look at the ways that lead to them.
ghost use Rattle.std.specs.Prelude.{◌≡◌, ◌<◌, ◌^◌, ◌↔◌, length, IfOk, OnOk, IsTrue};
ghost use Rattle.addr_moves.specs.within.Ways.{AreBadBelow, IsGoodAt, with_number};

use addr_base::{Guid, Items, NoMemory};
use std::alloc::Global;

/// Whether nothing is spoilt at a place, nothing leads away from it, and nothing is missed.
fn is_good(spoils: &[Items<Guid>], away: &[Option<Guid>], lost: &[Option<Guid>], n: usize) -> bool
    requires spoils { n < length spoils.now }
    requires away { n < length away.now }
    requires lost { n < length lost.now }
    ensures { IsTrue result → IsGoodAt spoils.now away.now lost.now n }
{
    if !spoils[n].is_empty() {
        return false;
    }
    if away[n].is_some() {
        return false;
    }
    lost[n].is_none()
}

fn add_unless(bad: &mut Items<u32>, is: bool, n: u32) -> Result<(), NoMemory>
    ensures { OnOk result (bad.new ≡ with_number is n bad.old) }
{
    if !is {
        bad.push(n)?;
    }
    Ok(())
}

/// The numbers of the places that need a look.
pub(crate) fn bad_of(
    alloc: Global,
    spoils: &[Items<Guid>],
    away: &[Option<Guid>],
    lost: &[Option<Guid>],
) -> Result<Items<u32>, NoMemory>
    requires few { length spoils.now < 2 ^ 32 }
    requires away { length away.now ≡ length spoils.now }
    requires lost { length lost.now ≡ length spoils.now }
    ensures { IfOk result (AreBadBelow spoils.now away.now lost.now (length spoils.now)) }
{
    let mut bad = Items::new(alloc);
    for n in 0..spoils.len() {
        add_unless(&mut bad, is_good(spoils, away, lost, n), n as u32)?;
    }
    Ok(bad)
}
