// A script beside its workers, from the machine that was opened to its end.
ghost use Rattle.std.specs.Prelude.{◌≡◌, ◌<◌, ◌≤◌, [], IfSome, length, map, string_bytes, vec_capacity};
ghost use Rattle.std.specs.List.{AllByRecursion};
ghost use Rattle.std.specs.Thread.{IsSync, IsSend};
ghost use Rattle.addr_turn.specs.Held.{view};
ghost use Rattle.addr_loader.specs.Sessions.{IsOf, lock_of};
ghost use Rattle.addr_loader.specs.Teams.{TeamWorked, Pairs, AreOf};
ghost use Rattle.addr_loader.specs.Turn.{Knowledge, limit_of, rows_of};
ghost use Rattle.addr_live.specs.Hands.{HandedOut, back};
ghost use Rattle.addr_live.specs.Orders.{IsOrder};
ghost use Rattle.addr_live.specs.Plays.{RanScript};
ghost use Rattle.addr_live.specs.Steps.{IsFirst, IsScripts};
ghost use Rattle.addr_live.specs.Whole.{AreChained, RanLive};

use crate::hands::{Handed, gather, hand_out};
use crate::order::Order;
use crate::script::{Ran, run_script};
use addr_cab::Cab;
use addr_core::Core;
use addr_fetch::{Fetch, Gate};
use addr_loader::{Session, Team, run_workers};
use addr_turn::Pass;
use std::alloc::Global;
use std::rt::Clock;
use std::sync::Wait;
use std::thread::Threads;

/// The end of a run: the machine and the text of the lines, where memory was there, and the fetchers as they came back.
#[derive(Drop)]
pub struct Ended<F> {
    pub core: Option<Core<Cab>>,
    pub text: Option<String>,
    pub fetchers: Vec<F>,
    pub fetch: F,
}

fn run_beside<R: Threads + Wait + Clock + Sync, F: Fetch + Send + Drop, G: Gate + Sync>(
    rt: &R,
    alloc: Global,
    session: &Session,
    orders: Vec<Order>,
    gate: &G,
    teams: Vec<Team<F>>,
    pass: Pass<Core<Cab>>,
    fetch: F,
) -> (Vec<Team<F>>, Ran<F>)
    requires teams { AreOf (lock_of session.now) teams.items }
    requires pass { IsOf session.now pass }
    requires scripts { IsScripts (view pass) }
    requires orders { AllByRecursion (IsOrder (rows_of (view pass))) orders.items }
    ensures teams { Pairs (TeamWorked F.gives (lock_of session.now)) teams.items result.0.items }
    ensures pass { IsOf session.now result.1.pass }
    ensures ran { IfSome result.1.text (λ text. RanScript F.gives (view pass) fetch (map (λ o. o.command) orders.items)
        (string_bytes text) (view result.1.pass) result.1.fetch) }
{
    run_workers(
        rt,
        session,
        teams,
        gate,
        || -> Ran<F>
            requires { IsOf session.now pass × IsScripts (view pass)
                × AllByRecursion (IsOrder (rows_of (view pass))) orders.items }
            ensures pass { IsOf session.entry.now result.pass }
            ensures ran { IfSome result.text (λ text. RanScript F.gives (view pass) fetch
                (map (λ o. o.command) orders.items) (string_bytes text) (view result.pass) result.fetch) }
        { run_script(rt, alloc, session, orders, gate, pass, fetch) },
    )
}

/// A whole run of a machine that was just opened: each fetcher but the last serves a worker, and `fetch` the script.
pub fn run_whole<R: Threads + Wait + Clock + Sync, F: Fetch + Send + Drop, G: Gate + Sync>(
    rt: &R,
    alloc: Global,
    core: Core<Cab>,
    fetchers: Vec<F>,
    fetch: F,
    orders: Vec<Order>,
    gate: &G,
) -> Ended<F>
    requires empty { core.history ≡ [] }
    requires workers { (0 < length fetchers.items) × (length fetchers.items ≤ 16) }
    requires orders { AllByRecursion (IsOrder core.rows) orders.items }
    ensures rows { IfSome result.text (λ text. IfSome result.core (λ m. m.rows ≡ core.rows)) }
    ensures live { IfSome result.text (λ text. IfSome result.core (λ m. RanLive core.rows core.limit
        (map (λ o. o.command) orders.items) (string_bytes text) m.history)) }
    ensures chained { IfSome result.text (λ text. IfSome result.core (λ m.
        AreChained F.gives core.rows m.history fetchers.items result.fetchers.items fetch result.fetch)) }
{
    match Session::open(alloc, core) {
        Ok((session, pass)) => run_session(rt, alloc, session, pass, fetchers, fetch, orders, gate),
        Err(_) => Ended {
            core: None,
            text: None,
            fetchers,
            fetch,
        },
    }
}

fn run_session<R: Threads + Wait + Clock + Sync, F: Fetch + Send + Drop, G: Gate + Sync>(
    rt: &R,
    alloc: Global,
    session: Session,
    pass: Pass<Core<Cab>>,
    fetchers: Vec<F>,
    fetch: F,
    orders: Vec<Order>,
    gate: &G,
) -> Ended<F>
    requires pass { IsOf session pass }
    requires first { IsFirst (view pass) }
    requires workers { (0 < length fetchers.items) × (length fetchers.items ≤ 16) }
    requires orders { AllByRecursion (IsOrder (rows_of (view pass))) orders.items }
    ensures rows { IfSome result.text (λ text. IfSome result.core (λ m. m.rows ≡ rows_of (view pass))) }
    ensures live { IfSome result.text (λ text. IfSome result.core (λ m. RanLive (rows_of (view pass)) (limit_of (view pass))
        (map (λ o. o.command) orders.items) (string_bytes text) m.history)) }
    ensures chained { IfSome result.text (λ text. IfSome result.core (λ m.
        AreChained F.gives (rows_of (view pass)) m.history fetchers.items result.fetchers.items fetch result.fetch)) }
{
    match hand_out(alloc, &session, pass, fetchers) {
        Ok(handed) => run_handed(rt, alloc, session, handed, fetch, orders, gate),
        Err((pass, fetchers)) => {
            session.finish(rt, pass);
            Ended {
                core: None,
                text: None,
                fetchers,
                fetch,
            }
        }
    }
}

fn run_handed<R: Threads + Wait + Clock + Sync, F: Fetch + Send + Drop, G: Gate + Sync>(
    rt: &R,
    alloc: Global,
    session: Session,
    handed: Handed<F>,
    fetch: F,
    orders: Vec<Order>,
    gate: &G,
) -> Ended<F>
    requires pass { IsOf session handed.pass }
    requires teams { AreOf (lock_of session) handed.teams.items }
    requires first { (v : Knowledge) × IsFirst v × HandedOut v (view handed.pass) handed.teams.items }
    requires some { 0 < length handed.teams.items }
    requires room { (handed.room.items ≡ []) × (length handed.teams.items ≤ vec_capacity handed.room) }
    requires orders { AllByRecursion (IsOrder (rows_of (view handed.pass))) orders.items }
    ensures rows { IfSome result.text (λ text. IfSome result.core (λ m. m.rows ≡ rows_of (view handed.pass))) }
    ensures live { IfSome result.text (λ text. IfSome result.core (λ m. RanLive (rows_of (view handed.pass))
        (limit_of (view handed.pass)) (map (λ o. o.command) orders.items) (string_bytes text) m.history)) }
    ensures chained { IfSome result.text (λ text. IfSome result.core (λ m. AreChained F.gives (rows_of (view handed.pass))
        m.history (back handed.teams.items) result.fetchers.items fetch result.fetch)) }
{
    let Handed { pass, teams, room } = handed;
    let (teams, ran) = run_beside(rt, alloc, &session, orders, gate, teams, pass, fetch);
    let Ran { pass, fetch, text } = ran;
    let (pass, fetchers) = gather(&session, pass, teams, room);
    let core = session.finish(rt, pass);
    Ended {
        core: Some(core),
        text,
        fetchers,
        fetch,
    }
}
