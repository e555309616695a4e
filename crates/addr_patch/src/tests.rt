// A fixed group of one asset whose byte changes: what an update puts, and what its key shows after each call of the depot failed.
use crate::{UpdateErr, update};
use addr_base::{Depot, MemDepot, NoMemory};
use addr_build::{Summary, build};
use addr_check::check;
use addr_resolve::resolve;
use std::alloc::Global;
use std::test::Fail;

const PROJECT: &str = "\
[[group]]\nname = 'Fix'\nfixed = true\n\
[[asset]]\nguid = '00000000000000000000000000000001'\ntype = 'T'\nfile = 'a'\n\
[[entry]]\nguid = '00000000000000000000000000000001'\ngroup = 'Fix'\naddress = 'a'\n";

const CATALOGUE: &str = "F/remote/catalog_main.json";

fn put(alloc: Global, depot: &mut MemDepot, name: &str, bytes: &[u8]) -> Result<(), NoMemory> {
    if depot.put(alloc, name, bytes).is_err() {
        return Err(NoMemory);
    }
    Ok(())
}

/// A folder whose release was built with the byte `A`, which is `B` now.
fn shipped(alloc: Global) -> Result<MemDepot, NoMemory> {
    let mut depot = MemDepot::new(Vec::new(alloc), Vec::new(alloc));
    put(alloc, &mut depot, "F/project.toml", PROJECT.as_bytes())?;
    put(alloc, &mut depot, "F/a", b"A")?;
    if build(alloc, &mut depot, "F").is_err() {
        return Err(NoMemory);
    }
    put(alloc, &mut depot, "F/a", b"B")?;
    Ok(depot)
}

/// The numbers of an update that was made: moved, bundles, put, rows.
fn numbers(answer: Result<Summary, UpdateErr>) -> [u32; 4] {
    match answer {
        Ok(summary) => [summary.moved, summary.bundles, summary.put, summary.rows],
        Err(_) => [99; 4],
    }
}

/// Whether the key leads to one item with this byte.
fn shows(alloc: Global, depot: &mut MemDepot, byte: &[u8]) -> bool {
    match resolve(alloc, depot, "F", "a") {
        Ok(rows) => match rows.as_slice() {
            [row] => match row.items.as_slice() {
                [item] => item.bytes.as_slice() == byte,
                _ => false,
            },
            _ => false,
        },
        Err(_) => false,
    }
}

#[test]
fn moves_a_changed_entry_and_leaves_it_there(rt: HostRuntime) -> Result<(), Fail> {
    let mut depot = shipped(rt.alloc())?;
    assert_eq!(rt; numbers(update(rt.alloc(), &mut depot, "F")), [1, 2, 1, 1]);
    assert!(rt; shows(rt.alloc(), &mut depot, b"B"));
    put(rt.alloc(), &mut depot, "F/a", b"A")?;
    assert_eq!(rt; numbers(update(rt.alloc(), &mut depot, "F")), [1, 2, 1, 1]);
    assert!(rt; shows(rt.alloc(), &mut depot, b"A"));
    assert_eq!(rt; numbers(update(rt.alloc(), &mut depot, "F")), [1, 2, 0, 1]);
    Ok(())
}

#[test]
fn puts_nothing_where_nothing_changed(rt: HostRuntime) -> Result<(), Fail> {
    let mut depot = shipped(rt.alloc())?;
    put(rt.alloc(), &mut depot, "F/a", b"A")?;
    let before = Vec::from_slice(rt.alloc(), depot.file(CATALOGUE).unwrap_or(&[]))?;
    assert_eq!(rt; numbers(update(rt.alloc(), &mut depot, "F")), [0, 1, 0, 1]);
    assert_eq!(rt; depot.file(CATALOGUE).unwrap_or(&[]), before.as_slice());
    match check(rt.alloc(), &mut depot, "F") {
        Ok(moves) => assert_eq!(rt; moves.len(), 0),
        Err(_) => assert!(rt; false),
    }
    Ok(())
}

/// Each call of the depot fails in turn, a put with and without effect: the key then shows the old byte, and the new one exactly where
/// the catalogue was put.
#[test]
fn shows_the_old_or_the_new_byte_after_each_stop(rt: HostRuntime) -> Result<(), Fail> {
    for effect in [false, true] {
        for call in 1..40 {
            let mut depot = shipped(rt.alloc())?;
            let before = Vec::from_slice(rt.alloc(), depot.file(CATALOGUE).unwrap_or(&[]))?;
            depot.fail_at(call, effect)?;
            let ended = update(rt.alloc(), &mut depot, "F");
            let is_new = depot.file(CATALOGUE).unwrap_or(&[]) != before.as_slice();
            assert!(rt; is_new || ended.is_err());
            let byte: &[u8] = if is_new { b"B" } else { b"A" };
            // a call behind those of the update fails the first look
            assert!(rt; shows(rt.alloc(), &mut depot, byte) || shows(rt.alloc(), &mut depot, byte));
        }
    }
    Ok(())
}
