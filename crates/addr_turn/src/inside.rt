//! A turn: its beginning, which may wait, the state in hand, a record, and its end.
//! The glance comes right after the look that gave the turn, so that the state which is taken out stands for what was seen.
ghost use Rattle.std.specs.Prelude.{◌≡◌, [], Some, None, true, false};
ghost use Rattle.addr_turn.specs.Held.{view, IsAtRest, IsPassOf, IsInside, IsSameLock};
ghost use Rattle.addr_turn.specs.OneHistory.{IsPrefix, IsKnown, AllAccounted};
ghost use Rattle.addr_turn.specs.Queue.{stage};
ghost use Rattle.addr_turn.specs.Steps.{with_role, Begun, MayRecord, HasRecorded, IsAsSeen};
ghost use Rattle.addr_turn.specs.declared.board.Role.TheVariants.{Idle};
ghost use Rattle.addr_turn.specs.Lent.{lends_state};
ghost use Rattle.std.specs.Borrow.{sem};

use crate::board::{Board, Place};
use crate::lock::{Inside, Pass, Recorded, Turns};
use crate::plays::{Draw, GlanceInTurn, Look, PutHome, Record, Serve, TakeOut};
use addr_base::Told;
use std::sync::Wait;
use std::thread;

// Draws a ticket, and looks until its turn has come.
fn await_turn<S: Told, R: Wait>(rt: &R, turns: &Turns<S>, place: &mut Place<S>)
    requires { IsAtRest turns.now.board.shared.table_id place.old }
    ensures seat { (place.new.table_id ≡ place.old.table_id) × (place.new.me.1 ≡ []) }
    ensures view { (stage place.new.me.0.role ≡ 2) × (place.new.me.0 ≡ with_role place.old.me.0 place.new.me.0.role) }
{
    let shared = &turns.board.shared;
    let ticket = shared.fetch_add::<Draw>(place, 0, 1);
    for _ in rt.forever() {
        if shared.load::<Look>(place, 1) == ticket {
            return;
        }
        thread::yield_now();
    }
    unreachable!()
}

impl<S: Told> Turns<S> {
    /// Waits for a turn, and takes the state out.
    pub fn enter<'t, 'p, R: Wait>(&'t self, rt: &R, pass: &'p mut Pass<S>) -> Inside<'t, 'p, S>
        requires { IsPassOf self.now pass.old }
        ensures inside { IsInside self.now result.pass.now × IsSameLock result.turns.now self.now }
        ensures fresh { result.is_recorded ≡ false }
        ensures name { result.pass.ghost_name ≡ pass.entry.ghost_name }
        ensures begun { Begun S.entries S.fixed S.number (view pass.old) result.state (view result.pass.now) }
        ensures knows { IsKnown S.number (S.entries result.state) (S.fixed result.state) (view result.pass.now) }
    {
        await_turn(rt, self, &mut pass.place);
        let shared = &self.board.shared;
        pass.count = shared.load::<GlanceInTurn>(&mut pass.place, 2);
        shared.load::<TakeOut>(&mut pass.place, 1);
        let state = shared.exchange(&mut pass.place, 0, None).unwrap();
        Inside {
            turns: self,
            pass,
            state,
            is_recorded: false,
        }
    }

    /// Waits for a last turn, and gives the state.
    pub fn close<R: Wait>(self, rt: &R, pass: Pass<S>) -> S
        requires { IsPassOf self pass }
        ensures seen { IsPrefix (view pass).seen (S.entries result) × ((view pass).fixed ≡ Some (S.fixed result)) }
        ensures knows { IsKnown S.number (S.entries result) (S.fixed result) (view pass) }
        ensures accounted { AllAccounted S.number (view pass) (S.entries result) }
    {
        let Pass {
            mut place,
            number: _,
            low: _,
            spare: _,
            count: _,
        } = pass;
        await_turn(rt, &self, &mut place);
        let Turns { board } = self;
        let mut closed = board.close_with(place);
        let state = closed.take(0).unwrap();
        closed.free();
        state
    }
}

// What stood in the slot's place is spent where it is nothing.
fn spend<S>(nothing: Option<S>)
    requires { nothing ≡ None }
{
    let None = nothing else { unreachable!() };
}

impl<'t, 'p, S: Told> Inside<'t, 'p, S> {
    /// The state, to be read and written.
    pub fn state(&mut self) -> &mut S
        ensures* writes_back { sem 𝓛 (lends_state S.row S.Entry.row S.Fixed.row S.Told self.entry result) }
        ensures value { result.now ≡ self.old.state }
    {
        &mut self.state
    }

    /// Adds the state's new entry to the history, of the pass's number or of none.
    pub fn record(self) -> Recorded<'t, 'p, S>
        requires inside { IsInside self.turns.now self.pass.now }
        requires fresh { self.is_recorded ≡ false }
        requires entry { MayRecord S.entries S.fixed S.number (view self.pass.now) self.state }
        requires part { (view self.pass.now).fixed ≡ Some (S.fixed self.state) }
        ensures inside { IsInside self.entry.turns.now result.pass.now }
        ensures lock { IsSameLock result.turns.now self.entry.turns.now }
        ensures spent { result.is_recorded ≡ true }
        ensures name { result.pass.ghost_name ≡ self.entry.pass.ghost_name }
        ensures state { result.state ≡ self.entry.state }
        ensures recorded { HasRecorded S.entries S.fixed S.number (view self.entry.pass.now) self.entry.state
            (view result.pass.now) }
    {
        let Inside {
            turns,
            pass,
            state,
            is_recorded: _,
        } = self;
        let shared = &turns.board.shared;
        pass.count = state.told();
        spend(shared.exchange(&mut pass.place, 0, Some(state)));
        shared.fetch_add::<Record>(&mut pass.place, 2, 1);
        let state = shared.exchange(&mut pass.place, 0, None).unwrap();
        Inside {
            turns,
            pass,
            state,
            is_recorded: true,
        }
    }

    /// Ends the turn, after the state is as the history that the pass has seen.
    pub fn leave(self)
        requires inside { IsInside self.turns.now self.pass.now }
        requires told { IsAsSeen S.entries S.fixed S.number (view self.pass.now) self.state }
        ensures rests { IsPassOf self.entry.turns.now self.exit.1.0.now }
        ensures view { view self.exit.1.0.now ≡ with_role (view self.entry.pass.now) Idle }
    {
        let Inside {
            turns,
            pass,
            state,
            is_recorded: _,
        } = self;
        let shared = &turns.board.shared;
        spend(shared.exchange(&mut pass.place, 0, Some(state)));
        shared.load::<PutHome>(&mut pass.place, 1);
        shared.fetch_add::<Serve>(&mut pass.place, 1, 1);
    }
}
