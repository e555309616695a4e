// Homes of references, and the bundles that they name.
ghost use Rattle.std.specs.Prelude.{◌≡◌, ◌++◌, map, IfOk, OnOk};
ghost use Rattle.std.specs.Ordering.{nat_cmp};
ghost use Rattle.addr_walks.specs.Walks.{IsListOf};
ghost use Rattle.addr_layout.specs.Homes.{home_at, home_from, bundles_named, IsNamedIn};

use crate::model::RefHome;
use addr_base::{Items, NoMemory};
use std::alloc::Global;

/// Where the references to some ranks lead from a bundle.
pub fn homes_of(
    alloc: Global,
    b: u32,
    bundles: &[Option<u32>],
    ranks: &[u32],
) -> Result<Items<RefHome>, NoMemory>
    ensures { IfOk result (λ homes. homes ≡ map (home_at b bundles.now) ranks.now) }
{
    let mut homes = Items::new(alloc);
    for rank in ranks.iter() {
        homes.push(home_at(b, bundles, *rank))?;
    }
    Ok(homes)
}

fn home_at(b: u32, bundles: &[Option<u32>], rank: u32) -> RefHome
    ensures { result ≡ home_at b bundles.now rank }
{
    match bundles.get(rank as usize) {
        Some(bundle) => home_from(b, *bundle),
        None => RefHome::Own,
    }
}

fn home_from(b: u32, bundle: Option<u32>) -> RefHome
    ensures { result ≡ home_from b bundle }
{
    match bundle {
        Some(c) if c != b => RefHome::Bundle(c),
        _ => RefHome::Own,
    }
}

/// The bundles that some rows of homes name, ascending.
pub fn direct_of(alloc: Global, rows: &[Items<RefHome>]) -> Result<Items<u32>, NoMemory>
    ensures { IfOk result (IsListOf nat_cmp (IsNamedIn rows.now)) }
{
    let mut direct = Vec::new(alloc);
    for row in rows.iter() {
        add_named(&mut direct, row.as_slice())?;
    }
    direct.sort_unstable();
    direct.dedup();
    Ok(Items::from_vec(direct))
}

fn add_named(direct: &mut Vec<u32>, homes: &[RefHome]) -> Result<(), NoMemory>
    ensures { OnOk result (direct.new.items ≡ direct.old.items ++ bundles_named homes.now) }
{
    for home in homes.iter() {
        match home {
            RefHome::Bundle(c) => direct.push(*c)?,
            RefHome::Own => {}
        }
    }
    Ok(())
}
