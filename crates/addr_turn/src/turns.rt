//! The calls of the lock that wait for nobody.
//! A step cannot be told a number but by its operands, so `split` first swaps the share for itself in a word: the word stays.
ghost use Rattle.std.specs.Prelude.{◌≡◌, ◌<◌, ◌≤◌, [], IfOk, IfErr, IsOk};
ghost use Rattle.addr_turn.specs.Held.{view, IsPassOf};
ghost use Rattle.addr_turn.specs.OneHistory.{first_view, IsPrefix, HasAll, AreApart, SharedOut};
ghost use Rattle.addr_turn.specs.Steps.{Sees, KnowsSeen, KnowsSome, with_share, kept_view, given_view, met_view};

use crate::lock::{Pass, Turns};
use crate::plays::{Compare, Glance, MeetPasses, Plan, SplitPass};
use addr_base::Told;
use atomic_table::{Refused, Table};
use std::alloc::Global;
use std::snapshot::Snapshot;

impl<S: Told> Turns<S> {
    /// A lock, and the pass with the number 0 that has every other number to spare. The state comes back for want of memory.
    pub fn open(alloc: Global, state: S) -> Result<(Turns<S>, Pass<S>), S>
        requires { S.entries state ≡ [] }
        ensures first { IfOk result (λ t. IsPassOf t.0 t.1 × (view t.1 ≡ first_view (S.fixed state))) }
        ensures whole { IfOk result (λ t. HasAll (view t.1)) }
        ensures back { IfErr result (λ x. x ≡ state) }
    {
        let about = Snapshot::of(&state);
        let mut slots = Vec::new(alloc);
        if let Err(failed) = slots.push(Some(state)) {
            slots.destroy_empty();
            return Err(failed.value.unwrap());
        }
        match Table::new(alloc, &[0, 0, 0], slots, &about) {
            Ok((board, place)) => Ok((
                Turns { board },
                Pass {
                    place,
                    number: 0,
                    low: 1,
                    spare: u32::MAX,
                    count: 0,
                },
            )),
            Err(Refused { mut slots }) => {
                let state = slots.pop().unwrap().unwrap();
                slots.destroy_empty();
                Err(state)
            }
        }
    }

    /// Looks at the length of the history, which the pass then has seen.
    pub fn glance(&self, pass: &mut Pass<S>) -> u64
        requires { IsPassOf self.now pass.old }
        ensures pass { IsPassOf self.now pass.new }
        ensures sees { Sees S.number (view pass.old) (view pass.old).role result (view pass.new) }
        ensures knows { KnowsSeen S.number (view pass.new) }
    {
        let found = self.board.shared.load::<Glance>(&mut pass.place, 2);
        pass.count = found;
        found
    }

    /// Gives the `share` lowest spare numbers to a new pass: the lowest is its number, and the others are its spare ones.
    /// The answer for want of memory never comes, since a pass takes none: it would hand the pass back.
    pub fn split(&self, pass: Pass<S>, share: u32) -> Result<(Pass<S>, Pass<S>), Pass<S>>
        requires { IsPassOf self.now pass × (0 < share) × (share ≤ (view pass).spare) }
        ensures kept { IfOk result
            (λ p. IsPassOf self.now p.0 × (view p.0 ≡ kept_view (with_share share (view pass)))) }
        ensures given { IfOk result
            (λ p. IsPassOf self.now p.1 × (view p.1 ≡ given_view (with_share share (view pass)))) }
        ensures domains { IfOk result (λ p. SharedOut (view pass) (view p.0) (view p.1)) }
        ensures succeeds { IsOk result }
        ensures back { IfErr result (λ p. p ≡ pass) }
    {
        let mut kept = pass;
        let shared = &self.board.shared;
        let taken = u64::from(share);
        shared.compare_exchange::<Plan>(&mut kept.place, 0, taken, taken);
        let place = shared.split_seat::<SplitPass>(&mut kept.place);
        let given = Pass {
            place,
            number: kept.low as u32,
            low: kept.low + 1,
            spare: share - 1,
            count: kept.count,
        };
        kept.low += taken;
        kept.spare -= share;
        Ok((kept, given))
    }

    /// Makes one pass of two, with the number and the spare numbers of the first.
    pub fn meet(&self, first: Pass<S>, second: Pass<S>) -> Pass<S>
        requires { IsPassOf self.now first × IsPassOf self.now second }
        ensures pass { IsPassOf self.now result × (view result ≡ met_view (view first) (view second)) }
        ensures knows { KnowsSome S.number (view result) }
        ensures one_history { IsPrefix (view first).seen (view result).seen
            × IsPrefix (view second).seen (view result).seen }
        ensures domains { SharedOut (view result) (view first) (view second) × AreApart (view first) (view second) }
    {
        let mut both = first;
        let count = second.count;
        let shared = &self.board.shared;
        shared.join_seat::<MeetPasses>(&mut both.place, second.place);
        shared.load::<Compare>(&mut both.place, 0);
        both.count = both.count.max(count);
        both
    }
}
