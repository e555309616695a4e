// Calls of the machine, each with what it adds by its answer: so a turn around it needs no proof file.
ghost use Rattle.std.specs.Prelude.{◌≡◌, [], ◌∷◌, slice_get, IfSome, OnOk, OnErr, IfOk, MatchBool, ◌<◌, ◌^◌, length};
ghost use Rattle.addr_history.specs.declared.event.Event.TheVariants.{Load, Acquire, Release, Done, Fail, Close};
ghost use Rattle.addr_history.specs.Answers.{acquire_reply, release_reply, release_adds, close_reply, close_adds, done_adds, fail_adds};
ghost use Rattle.addr_history.specs.Legal.{Legal};
ghost use Rattle.addr_cab.specs.Lookup.{Fits};
ghost use Rattle.addr_loader.specs.Turn.{Adds, LoadAnswer};

use addr_base::{BundleNo, Cause, OpId};
use addr_cab::Cab;
use addr_core::{AcquireErr, Ask, Core, LoadErr, NoHandle, NotTaken, Settled};

#[tactic(auto, unfolding(addr_history::specs::Answers::done_adds, addr_history::specs::Answers::done_reply))]
pub fn done_in(core: &mut Core<Cab>, worker: u32, b: BundleNo, image: Cab) -> Result<Settled, Cab>
    requires { IfSome (slice_get core.old.rows.bundles b.0) (λ row. Fits image row.size row.digest) }
    ensures ok { OnOk result (Adds core.old core.new (Done b worker ∷ []) × (done_adds core.old.history worker b ≡ Done b worker ∷ [])) }
    ensures err { OnErr result (Adds core.old core.new [] × (done_adds core.old.history worker b ≡ [])) }
    ensures legal { Legal core.new.rows core.new.limit core.new.history }
{
    let reply = core.done(worker, b, image);
    core.journal();
    reply
}

#[tactic(auto, unfolding(addr_history::specs::Answers::fail_adds, addr_history::specs::Answers::fail_reply))]
pub fn fail_in(core: &mut Core<Cab>, worker: u32, b: BundleNo, cause: Cause) -> Result<(), NotTaken>
    ensures ok { OnOk result (Adds core.old core.new (Fail b worker cause ∷ []) × (fail_adds core.old.history worker b cause ≡ Fail b worker cause ∷ [])) }
    ensures err { OnErr result (Adds core.old core.new [] × (fail_adds core.old.history worker b cause ≡ [])) }
    ensures legal { Legal core.new.rows core.new.limit core.new.history }
{
    let reply = core.fail(worker, b, cause);
    core.journal();
    reply
}

#[tactic(auto, unfolding(addr_history::specs::Answers::close_adds, addr_history::specs::Answers::close_reply))]
pub fn close_in(core: &mut Core<Cab>) -> bool
    ensures reply { result ≡ close_reply core.old.history }
    ensures adds { MatchBool result (Adds core.old core.new (Close ∷ []) × (close_adds core.old.history ≡ Close ∷ [])) (Adds core.old core.new [] × (close_adds core.old.history ≡ [])) }
    ensures legal { Legal core.new.rows core.new.limit core.new.history }
{
    let reply = core.close();
    core.journal();
    reply
}

pub fn load_in(core: &mut Core<Cab>, caller: u32, ask: Ask) -> Result<OpId, LoadErr>
    requires { length ask.keys < 2 ^ 32 }
    ensures ok { IfOk result (λ op. Adds core.old core.new (Load op caller ask ∷ [])) }
    ensures err { OnErr result (Adds core.old core.new []) }
    ensures answer { LoadAnswer core.old.rows core.old.limit core.old.history ask result }
    ensures legal { Legal core.new.rows core.new.limit core.new.history }
{
    let reply = core.load(caller, ask);
    core.journal();
    reply
}

pub fn acquire_in(core: &mut Core<Cab>, caller: u32, op: OpId) -> Result<(), AcquireErr>
    ensures ok { OnOk result (Adds core.old core.new (Acquire op caller ∷ [])) }
    ensures err { OnErr result (Adds core.old core.new []) }
    ensures answer { result ≡ acquire_reply core.old.rows core.old.limit core.old.history op }
    ensures legal { Legal core.new.rows core.new.limit core.new.history }
{
    let reply = core.acquire(caller, op);
    core.journal();
    reply
}
