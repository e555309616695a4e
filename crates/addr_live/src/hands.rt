// Passes are handed out to workers, each with a fetcher, and gathered again.
ghost use Rattle.std.specs.Prelude.{◌≡◌, ◌+◌, ◌≤◌, ◌<◌, ◌++◌, ◌∷◌, [], length, IfErr, IfOk, vec_capacity, vec_len};
ghost use Rattle.addr_turn.specs.Held.{view};
ghost use Rattle.addr_loader.specs.Sessions.{IsOf, lock_of};
ghost use Rattle.addr_loader.specs.Teams.{AreOf};
ghost use Rattle.addr_live.specs.Hands.{Gathered, HandedOut, back};

use addr_cab::Cab;
use addr_core::Core;
use addr_loader::{Session, Team};
use addr_turn::Pass;
use std::alloc::Global;

/// What is handed out: the pass that is kept, a team for each fetcher, and the room of the list of fetchers.
#[derive(Drop)]
pub struct Handed<F> {
    pub pass: Pass<Core<Cab>>,
    pub teams: Vec<Team<F>>,
    pub room: Vec<F>,
}

/// Pushes where there is room, and takes no memory.
fn push_within<T: Drop>(items: &mut Vec<T>, item: T)
    requires { vec_len items.old < vec_capacity items.old }
    ensures items { items.new.items ≡ items.old.items ++ item ∷ [] }
    ensures len { vec_len items.new ≡ vec_len items.old + 1 }
    ensures room { vec_capacity items.old ≤ vec_capacity items.new }
{
    match items.push(item) {
        Ok(()) => {}
        Err(_) => unreachable!(),
    }
}

/// A team for each fetcher, with a pass split off; the last fetcher's is the first. For want of memory all comes back.
pub fn hand_out<F: Drop>(
    alloc: Global,
    session: &Session,
    pass: Pass<Core<Cab>>,
    fetchers: Vec<F>,
) -> Result<Handed<F>, (Pass<Core<Cab>>, Vec<F>)>
    requires pass { IsOf session.now pass }
    requires spare { length fetchers.items ≤ (view pass).spare }
    ensures pass { IfOk result (λ h. IsOf session.now h.pass) }
    ensures teams { IfOk result (λ h. AreOf (lock_of session.now) h.teams.items) }
    ensures handed { IfOk result (λ h. HandedOut (view pass) (view h.pass) h.teams.items) }
    ensures count { IfOk result (λ h. length h.teams.items ≡ length fetchers.items) }
    ensures back { IfOk result (λ h. fetchers.items ≡ back h.teams.items) }
    ensures room { IfOk result (λ h. (h.room.items ≡ []) × (length fetchers.items ≤ vec_capacity h.room)) }
    ensures kept { IfErr result (λ e. (e.0 ≡ pass) × (e.1 ≡ fetchers)) }
{
    match Vec::with_capacity(alloc, fetchers.len()) {
        Ok(teams) => Ok(hand_to(session, pass, fetchers, teams)),
        Err(_) => Err((pass, fetchers)),
    }
}

fn hand_to<F: Drop>(
    session: &Session,
    pass: Pass<Core<Cab>>,
    fetchers: Vec<F>,
    teams: Vec<Team<F>>,
) -> Handed<F>
    requires pass { IsOf session.now pass }
    requires spare { length fetchers.items ≤ (view pass).spare }
    requires empty { teams.items ≡ [] }
    requires fit { length fetchers.items ≤ vec_capacity teams }
    ensures pass { IsOf session.now result.pass }
    ensures teams { AreOf (lock_of session.now) result.teams.items }
    ensures handed { HandedOut (view pass) (view result.pass) result.teams.items }
    ensures count { length result.teams.items ≡ length fetchers.items }
    ensures back { fetchers.items ≡ back result.teams.items }
    ensures room { (result.room.items ≡ []) × (length fetchers.items ≤ vec_capacity result.room) }
{
    let mut pass = pass;
    let mut fetchers = fetchers;
    let mut teams = teams;
    while let Some(fetch) = fetchers.pop() {
        let (kept, given) = session.split(pass, 1).unwrap();
        pass = kept;
        push_within(&mut teams, Team { pass: given, fetch });
    }
    Handed {
        pass,
        teams,
        room: fetchers,
    }
}

/// Meets the passes of all teams into one, and gives their fetchers back in the room, the last one first.
pub fn gather<F: Drop>(
    session: &Session,
    pass: Pass<Core<Cab>>,
    teams: Vec<Team<F>>,
    room: Vec<F>,
) -> (Pass<Core<Cab>>, Vec<F>)
    requires pass { IsOf session.now pass }
    requires teams { AreOf (lock_of session.now) teams.items }
    requires empty { room.items ≡ [] }
    requires fit { length teams.items ≤ vec_capacity room }
    ensures pass { IsOf session.now result.0 }
    ensures gathered { Gathered (view pass) teams.items (view result.0) }
    ensures back { result.1.items ≡ back teams.items }
{
    let mut pass = pass;
    let mut teams = teams;
    let mut fetchers = room;
    while let Some(team) = teams.pop() {
        let Team {
            pass: worked,
            fetch,
        } = team;
        pass = session.meet(pass, worked);
        push_within(&mut fetchers, fetch);
    }
    (pass, fetchers)
}
