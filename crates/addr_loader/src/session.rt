// Session calls: one turn around a call of the machine.
ghost use Rattle.std.specs.Prelude.{◌≡◌, ◌<◌, ◌^◌, List, [], length, slice_get, IfSome};
ghost use Rattle.addr_history.specs.declared.event.Event.{Event};
ghost use Rattle.addr_history.specs.Answers.{acquire_reply, acquire_adds, release_reply, release_adds, status_reply, close_reply, close_adds, load_adds, done_adds, done_reply, fail_adds, fail_reply};
ghost use Rattle.addr_cab.specs.Lookup.{Fits};
ghost use Rattle.addr_turn.specs.Held.{view};
ghost use Rattle.addr_loader.specs.Turn.{Turn, rows_of, limit_of, LoadAnswer};
ghost use Rattle.addr_loader.specs.Taking.{IsJob, TookTurn};
ghost use Rattle.addr_loader.specs.Sessions.{IsOf};

use crate::calls::{acquire_in, close_in, done_in, fail_in, load_in};
use crate::job::{Job, Taken};
use addr_base::{BundleNo, Cause, OpId, Text};
use addr_cab::Cab;
use addr_core::{AcquireErr, Ask, Core, LoadErr, Next, NoHandle, NotTaken, OpStatus, Settled};
use addr_locate::Locator;
use addr_turn::{Pass, Turns};
use std::alloc::Global;
use std::sync::Wait;

/// The machine, used by threads in turns.
pub struct Session {
    pub(crate) turns: Turns<Core<Cab>>,
    pub(crate) alloc: Global,
}

impl Session {
    pub fn release<R: Wait>(
        &self,
        rt: &R,
        pass: &mut Pass<Core<Cab>>,
        op: OpId,
    ) -> Result<(), NoHandle>
        requires { IsOf self.now pass.old }
        ensures pass { IsOf self.now pass.new }
        ensures turn { (h : List Event) × Turn (view pass.old) (view pass.new) h (release_adds h (view pass.old).number op) × (result ≡ release_reply h op) }
    {
        let caller = pass.number();
        let mut inside = self.turns.enter(rt, pass);
        let core = inside.state();
        let reply = core.release(caller, op);
        core.journal();
        match reply {
            Ok(()) => {
                let done = inside.record();
                done.leave();
                Ok(())
            }
            Err(e) => {
                inside.leave();
                Err(e)
            }
        }
    }

    pub fn load<R: Wait>(
        &self,
        rt: &R,
        pass: &mut Pass<Core<Cab>>,
        ask: Ask,
    ) -> Result<OpId, LoadErr>
        requires pass { IsOf self.now pass.old }
        requires keys { length ask.keys < 2 ^ 32 }
        ensures pass { IsOf self.now pass.new }
        ensures turn { (h : List Event) × Turn (view pass.old) (view pass.new) h (load_adds result (view pass.old).number ask) × LoadAnswer (rows_of (view pass.old)) (limit_of (view pass.old)) h ask result }
    {
        let caller = pass.number();
        let mut inside = self.turns.enter(rt, pass);
        let reply = load_in(inside.state(), caller, ask);
        match reply {
            Ok(op) => {
                let done = inside.record();
                done.leave();
                Ok(op)
            }
            Err(e) => {
                inside.leave();
                Err(e)
            }
        }
    }

    /// Takes one reference more of an unreleased operation, as `Core::acquire` does, in one turn.
    pub fn acquire<R: Wait>(
        &self,
        rt: &R,
        pass: &mut Pass<Core<Cab>>,
        op: OpId,
    ) -> Result<(), AcquireErr>
        requires { IsOf self.now pass.old }
        ensures pass { IsOf self.now pass.new }
        ensures turn { (h : List Event) × Turn (view pass.old) (view pass.new) h (acquire_adds result (view pass.old).number op)
            × (result ≡ acquire_reply (rows_of (view pass.old)) (limit_of (view pass.old)) h op) }
    {
        let caller = pass.number();
        let mut inside = self.turns.enter(rt, pass);
        let reply = acquire_in(inside.state(), caller, op);
        match reply {
            Ok(()) => {
                let done = inside.record();
                done.leave();
                Ok(())
            }
            Err(e) => {
                inside.leave();
                Err(e)
            }
        }
    }

    pub fn status<R: Wait>(
        &self,
        rt: &R,
        pass: &mut Pass<Core<Cab>>,
        op: OpId,
    ) -> Result<OpStatus, NoHandle>
        requires { IsOf self.now pass.old }
        ensures pass { IsOf self.now pass.new }
        ensures turn { Turn (view pass.old) (view pass.new) (view pass.new).seen [] }
        ensures answer { result ≡ status_reply (rows_of (view pass.old)) (view pass.new).seen op }
    {
        let mut inside = self.turns.enter(rt, pass);
        let core = inside.state();
        let reply = core.status(op);
        core.journal();
        inside.leave();
        reply
    }

    pub fn close<R: Wait>(&self, rt: &R, pass: &mut Pass<Core<Cab>>) -> bool
        requires { IsOf self.now pass.old }
        ensures pass { IsOf self.now pass.new }
        ensures turn { (h : List Event) × Turn (view pass.old) (view pass.new) h (close_adds h) × (result ≡ close_reply h) }
    {
        let mut inside = self.turns.enter(rt, pass);
        let reply = close_in(inside.state());
        if reply {
            let done = inside.record();
            done.leave();
            return true;
        }
        inside.leave();
        false
    }

    pub(crate) fn done<R: Wait>(
        &self,
        rt: &R,
        pass: &mut Pass<Core<Cab>>,
        b: BundleNo,
        image: Cab,
    ) -> Result<Settled, Cab>
        requires pass { IsOf self.now pass.old }
        requires fits { IfSome (slice_get (rows_of (view pass.old)).bundles b.0) (λ row. Fits image row.size row.digest) }
        ensures pass { IsOf self.now pass.new }
        ensures turn { (h : List Event) × Turn (view pass.old) (view pass.new) h (done_adds h (view pass.old).number b) }
    {
        let caller = pass.number();
        let mut inside = self.turns.enter(rt, pass);
        let reply = done_in(inside.state(), caller, b, image);
        match reply {
            Ok(settled) => {
                let done = inside.record();
                done.leave();
                Ok(settled)
            }
            Err(image) => {
                inside.leave();
                Err(image)
            }
        }
    }

    pub(crate) fn fail<R: Wait>(
        &self,
        rt: &R,
        pass: &mut Pass<Core<Cab>>,
        b: BundleNo,
        cause: Cause,
    ) -> Result<(), NotTaken>
        requires { IsOf self.now pass.old }
        ensures pass { IsOf self.now pass.new }
        ensures turn { (h : List Event) × Turn (view pass.old) (view pass.new) h (fail_adds h (view pass.old).number b cause) }
    {
        let caller = pass.number();
        let mut inside = self.turns.enter(rt, pass);
        let reply = fail_in(inside.state(), caller, b, cause);
        match reply {
            Ok(()) => {
                let done = inside.record();
                done.leave();
                Ok(())
            }
            Err(e) => {
                inside.leave();
                Err(e)
            }
        }
    }

    pub(crate) fn take<R: Wait>(&self, rt: &R, pass: &mut Pass<Core<Cab>>) -> Taken
        requires { IsOf self.now pass.old }
        ensures pass { IsOf self.now pass.new }
        ensures turn { TookTurn (view pass.old) (view pass.new) result }
    {
        let caller = pass.number();
        let mut inside = self.turns.enter(rt, pass);
        let core = inside.state();
        let next = core.take(caller);
        core.journal();
        match next {
            Next::Bundle(b) => {
                let job = job_of(self.alloc, core.locator(), b);
                let done = inside.record();
                done.leave();
                Taken::Job(b, job)
            }
            Next::Idle => {
                inside.leave();
                Taken::Idle
            }
            Next::End => {
                inside.leave();
                Taken::End
            }
        }
    }
}

fn job_of(alloc: Global, locator: &Locator, b: BundleNo) -> Option<Job>
    ensures { IsJob locator.now b result }
{
    match locator.bundles().get(b.0 as usize) {
        Some(row) => match Text::copy_of(alloc, row.id.as_str()) {
            Ok(id) => Some(Job {
                id,
                size: row.size,
                digest: row.digest,
            }),
            Err(_) => None,
        },
        None => None,
    }
}
