//! A worked caller: a tally under the lock, to which a pass adds its number in one turn.
//! It shows what a caller knows of its pass after a turn, with no proof file; the tests use it.
ghost use Rattle.std.specs.Prelude.{◌≡◌, ◌++◌, [], ◌∷◌, MatchBool};
ghost use Rattle.addr_turn.specs.Held.{view, IsPassOf};

use crate::{Pass, Told, Turns};
use std::sync::Wait;

/// The numbers of the passes that recorded, in order.
#[derive(Drop)]
pub(crate) struct Tally {
    pub(crate) numbers: Vec<u32>,
}

impl Told for Tally {
    type Entry = u32;

    type Fixed = ();

    ghost use Rattle.std.specs.Prelude.{Some};

    ghost entries = { λ t. t.numbers.items };

    ghost fixed = { λ _. tt };

    ghost number = { λ n. Some n };

    fn told(&self) -> u64 {
        self.numbers.len() as u64
    }
}

fn add(tally: &mut Tally, number: u32) -> bool
    ensures { MatchBool result (tally.new.numbers.items ≡ tally.old.numbers.items ++ number ∷ [])
        (tally.new.numbers.items ≡ tally.old.numbers.items) }
{
    tally.numbers.push(number).is_ok()
}

// One turn. What the pass recorded has grown by its number, or it stays where memory lacks.
pub(crate) fn add_once<R: Wait>(rt: &R, turns: &Turns<Tally>, pass: &mut Pass<Tally>) -> bool
    requires { IsPassOf turns.now pass.old }
    ensures pass { IsPassOf turns.now pass.new }
    ensures number { (view pass.new).number ≡ (view pass.old).number }
    ensures mine { MatchBool result ((view pass.new).mine ≡ (view pass.old).mine ++ (view pass.old).number ∷ [])
        ((view pass.new).mine ≡ (view pass.old).mine) }
{
    let number = pass.number();
    let mut inside = turns.enter(rt, pass);
    if add(inside.state(), number) {
        let done = inside.record();
        done.leave();
        return true;
    }
    inside.leave();
    false
}
