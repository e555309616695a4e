// One piece of work: a Take, one fetch, and its end.
ghost use Rattle.std.specs.Prelude.{◌≡◌, ◌∷◌, ◌++◌, [], true, List, slice_get, IfSome, IfOk, Some, None};
ghost use Rattle.addr_history.specs.declared.event.Event.{Event};
ghost use Rattle.addr_history.specs.Places.{is_fetched_by};
ghost use Rattle.addr_history.specs.Events.{number_of};
ghost use Rattle.addr_turn.specs.Held.{view};
ghost use Rattle.addr_turn.specs.OneHistory.{own};
ghost use Rattle.addr_loader.specs.Turn.{rows_of, limit_of};
ghost use Rattle.addr_loader.specs.Chain.{end_of};
ghost use Rattle.addr_loader.specs.Gains.{Gains};
ghost use Rattle.addr_loader.specs.Taking.{IsJob};
ghost use Rattle.addr_loader.specs.Works.{Works, IsAtWork, ended_cause, Carried};
ghost use Rattle.addr_cab.specs.Lookup.{Fits};
ghost use Rattle.addr_loader.specs.Sessions.{IsOf};

use crate::job::{Job, Taken};
use crate::judging::fetch_job;
use crate::session::Session;
use addr_base::{BundleNo, Cause};
use addr_cab::Cab;
use addr_core::Core;
use addr_fetch::{Fetch, Gate};
use addr_turn::Pass;
use std::sync::Wait;

/// What a call of `work_one` did.
#[derive(Clone, Copy)]
pub enum Worked {
    Did(BundleNo),
    Idle,
    End,
}

impl Session {
    pub fn work_one<R: Wait, F: Fetch, G: Gate>(
        &self,
        rt: &R,
        pass: &mut Pass<Core<Cab>>,
        fetch: &mut F,
        gate: &G,
    ) -> Worked
        requires { IsOf self.now pass.old }
        ensures pass { IsOf self.now pass.new }
        ensures works { Works F.gives (view pass.old) fetch.old result (view pass.new) fetch.new }
    {
        match self.take(rt, pass) {
            Taken::Job(b, job) => {
                self.carry_out(rt, pass, b, job, fetch, gate);
                Worked::Did(b)
            }
            Taken::Idle => Worked::Idle,
            Taken::End => Worked::End,
        }
    }

    fn carry_out<R: Wait, F: Fetch, G: Gate>(
        &self,
        rt: &R,
        pass: &mut Pass<Core<Cab>>,
        b: BundleNo,
        job: Option<Job>,
        fetch: &mut F,
        gate: &G,
    )
        requires pass { IsOf self.now pass.old }
        requires work { IsAtWork (view pass.old) b }
        requires job { IsJob (rows_of (view pass.old)) b job }
        ensures pass { IsOf self.now pass.new }
        ensures carried { Carried F.gives (view pass.old) b fetch.old (view pass.new) fetch.new }
    {
        match job {
            Some(job) => {
                gate.before(b);
                let ended = fetch_job(self.alloc, fetch, &job);
                gate.after(b);
                self.end(rt, pass, b, ended);
            }
            None => self.end(rt, pass, b, Err(Cause::NoMemory)),
        }
    }

    /// Ends the fetch of a bundle that the worker has taken.
    fn end<R: Wait>(
        &self,
        rt: &R,
        pass: &mut Pass<Core<Cab>>,
        b: BundleNo,
        ended: Result<Cab, Cause>,
    )
        requires pass { IsOf self.now pass.old }
        requires work { IsAtWork (view pass.old) b }
        requires fits { IfOk ended (λ image. IfSome (slice_get (rows_of (view pass.old)).bundles b.0) (λ row. Fits image row.size row.digest)) }
        ensures pass { IsOf self.now pass.new }
        ensures ended { Gains (view pass.old) (view pass.new) (end_of (view pass.old).number b (ended_cause ended) ∷ []) }
    {
        match ended {
            Ok(image) => {
                let _ = self.done(rt, pass, b, image);
            }
            Err(cause) => {
                let _ = self.fail(rt, pass, b, cause);
            }
        }
    }
}
