//! One thread, and two, with a tally under the lock.
ghost use Rattle.addr_turn.specs.Held.{IsPassOf};

use crate::tally::{Tally, add_once};
use crate::{Pass, Turns};
use std::sync::Wait;
use std::test::Fail;
use std::thread::{Threads, join};

fn add_often<R: Wait>(
    rt: &R,
    turns: &Turns<Tally>,
    mut pass: Pass<Tally>,
    times: u64,
) -> Pass<Tally>
    requires { IsPassOf turns.now pass }
    ensures { IsPassOf turns.now result }
{
    for _ in 0..times {
        add_once(rt, turns, &mut pass);
    }
    pass
}

fn race<R: Threads + Wait + Sync>(
    rt: &R,
    turns: &Turns<Tally>,
    first: Pass<Tally>,
    second: Pass<Tally>,
    times: u64,
) -> (Pass<Tally>, Pass<Tally>)
    requires { IsPassOf turns.now first × IsPassOf turns.now second }
    ensures { IsPassOf turns.now result.0 × IsPassOf turns.now result.1 }
{
    join(
        rt,
        || -> Pass<Tally>
            requires { IsPassOf turns.now first }
            ensures { IsPassOf turns.entry.now result }
        { add_often(rt, turns, first, times) },
        || -> Pass<Tally>
            requires { IsPassOf turns.now second }
            ensures { IsPassOf turns.entry.now result }
        { add_often(rt, turns, second, times) },
    )
}

fn count_of(tally: &Tally, number: u32) -> usize {
    tally.numbers.iter().filter(|n| **n == number).count()
}

#[test]
fn one_record_on_each_of_two_passes(rt: HostRuntime) -> Result<(), Fail> {
    let empty = Tally {
        numbers: Vec::new(rt.alloc()),
    };
    let Ok((turns, pass)) = Turns::open(rt.alloc(), empty) else {
        return Err(Fail::from("open"));
    };
    let (mut first, mut second) = turns.split(pass, 1).unwrap();
    let is_split = first.number() == 0 && second.number() == 1 && second.spare() == 0;
    let is_first = add_once(&rt, &turns, &mut first) && turns.glance(&mut second) == 1;
    let is_second = add_once(&rt, &turns, &mut second);
    let mut both = turns.meet(first, second);
    let length = both.length();
    let inside = turns.enter(&rt, &mut both);
    inside.leave();
    let found = turns.glance(&mut both);
    let spare = both.spare();
    let tally = turns.close(&rt, both);
    assert!(rt;
        is_split && is_first && is_second && length == 2 && found == 2 && spare == u32::MAX - 1
    );
    assert!(rt; tally.numbers.as_slice() == [0, 1].as_slice());
    Ok(())
}

#[test]
fn two_threads_record_a_thousand_each(rt: HostRuntime) -> Result<(), Fail> {
    let empty = Tally {
        numbers: Vec::new(rt.alloc()),
    };
    let Ok((turns, pass)) = Turns::open(rt.alloc(), empty) else {
        return Err(Fail::from("open"));
    };
    let (first, second) = turns.split(pass, 1).unwrap();
    let (first, second) = race(&rt, &turns, first, second, 1000);
    let both = turns.meet(first, second);
    let tally = turns.close(&rt, both);
    assert!(rt; count_of(&tally, 0) == 1000 && count_of(&tally, 1) == 1000);
    assert!(rt; tally.numbers.len() == 2000);
    Ok(())
}
