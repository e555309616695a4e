// The end of a session: every pass is met into the script's, and the lock is closed.
ghost use Rattle.std.specs.Prelude.{◌≡◌, ℕ, [], IfOk, IfErr};
ghost use Rattle.addr_turn.specs.Held.{view};
ghost use Rattle.addr_turn.specs.OneHistory.{HasAll, first_view, IsKnown, AllAccounted, IsPrefix};
ghost use Rattle.addr_history.specs.Events.{number_of};
ghost use Rattle.addr_loader.specs.Meets.{MetAll, Finished};
ghost use Rattle.addr_loader.specs.Sessions.{IsOf};

use crate::session::Session;
use addr_cab::Cab;
use addr_core::Core;
use addr_turn::{Pass, Turns};
use std::alloc::Global;
use std::sync::Wait;

impl Session {
    pub fn open(alloc: Global, core: Core<Cab>) -> Result<(Session, Pass<Core<Cab>>), Core<Cab>>
        requires { core.history ≡ [] }
        ensures pass { IfOk result (λ s. IsOf s.0 s.1) }
        ensures first { IfOk result (λ s. view s.1 ≡ first_view (core.rows, core.limit)) }
        ensures whole { IfOk result (λ s. HasAll (view s.1)) }
        ensures back { IfErr result (λ c. c ≡ core) }
    {
        match Turns::open(alloc, core) {
            Ok((turns, pass)) => Ok((Session { turns, alloc }, pass)),
            Err(core) => Err(core),
        }
    }

    pub fn meet(&self, first: Pass<Core<Cab>>, second: Pass<Core<Cab>>) -> Pass<Core<Cab>>
        requires { IsOf self.now first × IsOf self.now second }
        ensures pass { IsOf self.now result }
        ensures met { MetAll (view first) (view second) (view result) }
    {
        self.turns.meet(first, second)
    }

    pub fn finish<R: Wait>(self, rt: &R, pass: Pass<Core<Cab>>) -> Core<Cab>
        requires { IsOf self pass }
        ensures finished { Finished (view pass) result }
    {
        let Session { turns, alloc: _ } = self;
        let core = turns.close(rt, pass);
        core.journal();
        core
    }
}
