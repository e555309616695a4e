// Workers: a list of teams, each in a thread of its own, by halves.
ghost use Rattle.std.specs.Prelude.{◌≡◌};
ghost use Rattle.std.specs.Thread.{IsSync, IsSend};
ghost use Rattle.addr_turn.specs.Held.{view};
ghost use Rattle.addr_loader.specs.Teams.{TeamWorked, Pairs, AreOf};
ghost use Rattle.addr_loader.specs.Sessions.{IsOf, lock_of};

use crate::session::Session;
use addr_cab::Cab;
use addr_core::Core;
use addr_fetch::{Fetch, Gate};
use addr_turn::Pass;
use std::rt::Clock;
use std::sync::Wait;
use std::thread::{Threads, join, join_mut};

/// A worker's pass, and its fetcher.
#[derive(Drop)]
pub struct Team<F> {
    pub pass: Pass<Core<Cab>>,
    pub fetch: F,
}

fn work_team<R: Wait + Clock, F: Fetch, G: Gate>(
    rt: &R,
    session: &Session,
    gate: &G,
    team: &mut Team<F>,
)
    requires { IsOf session.now team.old.pass }
    ensures { TeamWorked F.gives (lock_of session.now) team.old team.new }
{
    session.work_all(rt, &mut team.pass, &mut team.fetch, gate);
}

fn work_teams<R: Threads + Wait + Clock + Sync, F: Fetch + Send, G: Gate + Sync>(
    rt: &R,
    session: &Session,
    gate: &G,
    teams: &mut [Team<F>],
)
    requires { AreOf (lock_of session.now) teams.old }
    ensures { Pairs (TeamWorked F.gives (lock_of session.now)) teams.old teams.new }
{
    let n = teams.len();
    if n == 0 {
        return;
    }
    if n == 1 {
        work_team(rt, session, gate, &mut teams[0]);
        return;
    }
    let (front, back) = teams.split_at_mut(n / 2);
    join_mut(
        rt,
        &mut ||
            requires { IsSync R.row × IsSync G.row × IsSend F.row × AreOf (lock_of session.now) front.now }
            ensures { Pairs (TeamWorked F.gives (lock_of session.entry.now)) front.entry.now front.exit.now }
        { work_teams(rt, session, gate, front) },
        &mut ||
            requires { IsSync R.row × IsSync G.row × IsSend F.row × AreOf (lock_of session.now) back.now }
            ensures { Pairs (TeamWorked F.gives (lock_of session.entry.now)) back.entry.now back.exit.now }
        { work_teams(rt, session, gate, back) },
    );
}

fn work_list<R: Threads + Wait + Clock + Sync, F: Fetch + Send, G: Gate + Sync>(
    rt: &R,
    session: &Session,
    gate: &G,
    mut teams: Vec<Team<F>>,
) -> Vec<Team<F>>
    requires { AreOf (lock_of session.now) teams.items }
    ensures { Pairs (TeamWorked F.gives (lock_of session.now)) teams.items result.items }
{
    work_teams(rt, session, gate, teams.as_mut_slice());
    teams
}

/// Runs each team until the session is closed and nothing is queued, and the body beside them.
pub fn run_workers<
    R: Threads + Wait + Clock + Sync,
    F: Fetch + Send + Drop,
    G: Gate + Sync,
    T,
    B: FnOnce() -> T,
>(rt: &R, session: &Session, teams: Vec<Team<F>>, gate: &G, body: B) -> (Vec<Team<F>>, T)
    requires teams { AreOf (lock_of session.now) teams.items }
    requires body { B.IsAlwaysCallable body }
    ensures teams { Pairs (TeamWorked F.gives (lock_of session.now)) teams.items result.0.items }
    ensures body { B.post body result.1 }
{
    join(
        rt,
        || -> Vec<Team<F>>
            requires { IsSync R.row × IsSync G.row × IsSend F.row × AreOf (lock_of session.now) teams.items }
            ensures { Pairs (TeamWorked F.gives (lock_of session.entry.now)) teams.items result.items }
        { work_list(rt, session, gate, teams) },
        body,
    )
}
