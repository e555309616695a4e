// A question, and the calls that wait for nobody.
ghost use Rattle.std.specs.Prelude.{◌≡◌, ◌<◌, ◌≤◌, [], IfOk, IfErr, IsOk};
ghost use Rattle.addr_history.specs.Answers.{count_reply};
ghost use Rattle.addr_history.specs.Counts.{references_of};
ghost use Rattle.addr_cab.specs.Lookup.{Held, object_with};
ghost use Rattle.addr_core.specs.Machine.{Machine, AnswersRead};
ghost use Rattle.addr_core.specs.ReadAll.{AnswersReadAll};
ghost use Rattle.addr_history.specs.Events.{number_of};
ghost use Rattle.addr_turn.specs.Held.{view};
ghost use Rattle.addr_turn.specs.OneHistory.{SharedOut};
ghost use Rattle.addr_turn.specs.Steps.{Sees, with_share, kept_view, given_view};
ghost use Rattle.addr_loader.specs.Turn.{Turn, rows_of, IsMachine};
ghost use Rattle.addr_loader.specs.Sessions.{IsOf};

use crate::session::Session;
use addr_base::{BundleNo, Items, OpId};
use addr_cab::Cab;
use addr_core::{BundleState, Core, Item2, ReadErr};
use addr_turn::Pass;
use std::sync::Wait;

impl Session {
    pub fn count<R: Wait>(
        &self,
        rt: &R,
        pass: &mut Pass<Core<Cab>>,
        b: BundleNo,
    ) -> Option<(u32, BundleState)>
        requires { IsOf self.now pass.old }
        ensures pass { IsOf self.now pass.new }
        ensures turn { Turn (view pass.old) (view pass.new) (view pass.new).seen [] }
        ensures answer { result ≡ count_reply (rows_of (view pass.old)) (view pass.new).seen b }
    {
        let mut inside = self.turns.enter(rt, pass);
        let core = inside.state();
        let reply = core.count(b);
        core.journal();
        inside.leave();
        reply
    }

    /// How many references an operation has, as `Core::references` says, in one turn.
    pub fn references<R: Wait>(&self, rt: &R, pass: &mut Pass<Core<Cab>>, op: OpId) -> u32
        requires { IsOf self.now pass.old }
        ensures pass { IsOf self.now pass.new }
        ensures turn { Turn (view pass.old) (view pass.new) (view pass.new).seen [] }
        ensures answer { result ≡ references_of (view pass.new).seen op }
    {
        let mut inside = self.turns.enter(rt, pass);
        let core = inside.state();
        let reply = core.references(op);
        core.journal();
        inside.leave();
        reply
    }

    /// The bytes of the asset that an operation's i-th row is, as `Core::read` gives them, in one turn.
    pub fn read<R: Wait>(
        &self,
        rt: &R,
        pass: &mut Pass<Core<Cab>>,
        op: OpId,
        i: u32,
    ) -> Result<Items<u8>, ReadErr>
        requires { IsOf self.now pass.old }
        ensures pass { IsOf self.now pass.new }
        ensures turn { Turn (view pass.old) (view pass.new) (view pass.new).seen [] }
        ensures answer { (m : Machine Held) × IsMachine (view pass.old) (view pass.new).seen m
            × AnswersRead object_with m op i result }
    {
        let mut inside = self.turns.enter(rt, pass);
        let core = inside.state();
        let reply = core.read(op, i);
        core.journal();
        inside.leave();
        reply
    }

    /// That asset with all that it leads to among the operation's bundles, as `Core::read_all` gives it, in one turn.
    pub fn read_all<R: Wait>(
        &self,
        rt: &R,
        pass: &mut Pass<Core<Cab>>,
        op: OpId,
        i: u32,
    ) -> Result<Items<Item2>, ReadErr>
        requires { IsOf self.now pass.old }
        ensures pass { IsOf self.now pass.new }
        ensures turn { Turn (view pass.old) (view pass.new) (view pass.new).seen [] }
        ensures answer { (m : Machine Held) × IsMachine (view pass.old) (view pass.new).seen m
            × AnswersReadAll object_with m op i result }
    {
        let mut inside = self.turns.enter(rt, pass);
        let core = inside.state();
        let reply = core.read_all(op, i);
        core.journal();
        inside.leave();
        reply
    }

    pub fn glance(&self, pass: &mut Pass<Core<Cab>>) -> u64
        requires { IsOf self.now pass.old }
        ensures pass { IsOf self.now pass.new }
        ensures sees { Sees number_of (view pass.old) (view pass.old).role result (view pass.new) }
    {
        self.turns.glance(pass)
    }

    pub fn split(
        &self,
        pass: Pass<Core<Cab>>,
        share: u32,
    ) -> Result<(Pass<Core<Cab>>, Pass<Core<Cab>>), Pass<Core<Cab>>>
        requires { IsOf self.now pass × (0 < share) × (share ≤ (view pass).spare) }
        ensures kept { IfOk result (λ p. IsOf self.now p.0 × (view p.0 ≡ kept_view (with_share share (view pass)))) }
        ensures given { IfOk result (λ p. IsOf self.now p.1 × (view p.1 ≡ given_view (with_share share (view pass)))) }
        ensures domains { IfOk result (λ p. SharedOut (view pass) (view p.0) (view p.1)) }
        ensures succeeds { IsOk result }
        ensures back { IfErr result (λ p. p ≡ pass) }
    {
        self.turns.split(pass, share)
    }
}
