// Waiting for an operation, with help.
ghost use Rattle.std.specs.Prelude.{◌≡◌, ◌∷◌, ◌++◌, [], List};
ghost use Rattle.addr_history.specs.Answers.{status_reply};
ghost use Rattle.addr_turn.specs.Held.{view};
ghost use Rattle.addr_loader.specs.Turn.{rows_of};
ghost use Rattle.addr_loader.specs.Waits.{WorksOn, IsSettled, IsOver};
ghost use Rattle.addr_loader.specs.Sessions.{IsOf};

use crate::session::Session;
use crate::worker::Worked;
use addr_base::OpId;
use addr_cab::Cab;
use addr_core::{Core, NoHandle, OpStatus};
use addr_fetch::{Fetch, Gate};
use addr_turn::Pass;
use std::rt::Clock;
use std::sync::Wait;
use std::thread;
use std::time::Duration;

/// A worker that found nothing to do sleeps a millisecond before it looks again.
fn rest<R: Clock>(rt: &R) {
    thread::sleep(rt, Duration::from_millis(1));
}

impl Session {
    /// Helps with the work until the operation is no longer pending.
    pub fn wait<R: Wait + Clock, F: Fetch, G: Gate>(
        &self,
        rt: &R,
        pass: &mut Pass<Core<Cab>>,
        op: OpId,
        fetch: &mut F,
        gate: &G,
    ) -> Result<OpStatus, NoHandle>
        requires { IsOf self.now pass.old }
        ensures pass { IsOf self.now pass.new }
        ensures works { WorksOn F.gives (view pass.old) fetch.old (view pass.new) fetch.new }
        ensures answer { result ≡ status_reply (rows_of (view pass.old)) (view pass.new).seen op }
        ensures settled { IsSettled result }
    {
        for _ in rt.forever() {
            match self.status(rt, pass, op) {
                Ok(OpStatus::Pending) => self.help(rt, pass, fetch, gate),
                reply => return reply,
            }
        }
        unreachable!()
    }

    fn help<R: Wait + Clock, F: Fetch, G: Gate>(
        &self,
        rt: &R,
        pass: &mut Pass<Core<Cab>>,
        fetch: &mut F,
        gate: &G,
    )
        requires { IsOf self.now pass.old }
        ensures pass { IsOf self.now pass.new }
        ensures works { WorksOn F.gives (view pass.old) fetch.old (view pass.new) fetch.new }
    {
        match self.work_one(rt, pass, fetch, gate) {
            Worked::Did(_) => {}
            _ => rest(rt),
        }
    }

    /// Works until nothing is queued and nothing will be.
    pub(crate) fn work_all<R: Wait + Clock, F: Fetch, G: Gate>(
        &self,
        rt: &R,
        pass: &mut Pass<Core<Cab>>,
        fetch: &mut F,
        gate: &G,
    )
        requires { IsOf self.now pass.old }
        ensures pass { IsOf self.now pass.new }
        ensures works { WorksOn F.gives (view pass.old) fetch.old (view pass.new) fetch.new }
        ensures ended { IsOver (rows_of (view pass.old)) (view pass.new).seen }
    {
        for _ in rt.forever() {
            match self.work_one(rt, pass, fetch, gate) {
                Worked::Did(_) => {}
                Worked::Idle => rest(rt),
                Worked::End => return,
            }
        }
        unreachable!()
    }
}
