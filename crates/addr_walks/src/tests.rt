// What no clause says: that each call can succeed, on rows whose walks can be followed by hand.
use crate::{Search, are_below, closed};
use addr_base::{Items, NoMemory};
use std::alloc::Global;
use std::test::Fail;

/// Row 1 leads to 0, row 2 to 4, rows 3 and 5 to each other, row 3 also to 1, and row 5 to itself.
fn rows(alloc: Global) -> Result<Vec<Items<u32>>, NoMemory> {
    let mut rows = Vec::new(alloc);
    for row in [[].as_slice(), &[0], &[4], &[5, 1], &[], &[3, 5]] {
        rows.push(Items::copy_of(alloc, row)?)?;
    }
    Ok(rows)
}

#[test]
fn follows_every_walk(rt: HostRuntime) -> Result<(), Fail> {
    let made = rows(rt.alloc())?;
    let rows = made.as_slice();
    assert_eq!(rt; rows.len(), 6);
    assert!(rt; are_below(rows));
    let all = closed(rt.alloc(), rows)?;
    for (deps, want) in all.as_slice().iter().zip([
        [0].as_slice(),
        &[1, 0],
        &[2, 4],
        &[3, 0, 1, 5],
        &[4],
        &[5, 0, 1, 3],
    ]) {
        assert!(rt; deps.as_slice() == want);
    }
    Ok(())
}

#[test]
fn searches_one_after_another(rt: HostRuntime) -> Result<(), Fail> {
    let made = rows(rt.alloc())?;
    let rows = made.as_slice();
    assert_eq!(rt; rows.len(), 6);
    assert!(rt; are_below(rows));
    let mut search = Search::new(rt.alloc(), rows.len())?;
    assert_eq!(rt; search.count(rows, &[5, 2])?, 6);
    assert_eq!(rt; search.count_below(rows, &[5, 2], 4)?, 4);
    let found = search.reached(rt.alloc(), rows, &[2])?;
    assert!(rt; found.as_slice() == [2, 4].as_slice());
    Ok(())
}

/// Row b leads to b / 2 (rounded down), so the last of 1,100 rows leads to ten others and to 0.
#[test]
fn closes_more_than_a_thousand_rows(rt: HostRuntime) -> Result<(), Fail> {
    let mut made = Vec::new(rt.alloc());
    for b in 0..1100u32 {
        made.push(Items::copy_of(rt.alloc(), &[b / 2])?)?;
    }
    let rows = made.as_slice();
    assert_eq!(rt; rows.len(), 1100);
    assert!(rt; are_below(rows));
    let all = closed(rt.alloc(), rows)?;
    let want = [1099, 0, 1, 2, 4, 8, 17, 34, 68, 137, 274, 549];
    assert!(rt; all.as_slice()[1099].as_slice() == want.as_slice());
    Ok(())
}
