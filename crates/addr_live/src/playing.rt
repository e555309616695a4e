// One order of a script on a session.
ghost use Rattle.std.specs.Prelude.{◌≡◌, IfOk};
ghost use Rattle.addr_turn.specs.Held.{view};
ghost use Rattle.addr_loader.specs.Sessions.{IsOf};
ghost use Rattle.addr_loader.specs.Turn.{rows_of};
ghost use Rattle.addr_live.specs.Orders.{IsOrder};
ghost use Rattle.addr_live.specs.Plays.{PlaysLine};
ghost use Rattle.addr_live.specs.Steps.{IsScripts};

use crate::order::Order;
use crate::told::{acquire_told, close_told, count_told, load_told, release_told, status_told};
use addr_base::NoMemory;
use addr_cab::Cab;
use addr_core::Core;
use addr_fetch::{Fetch, Gate};
use addr_loader::Session;
use addr_script::{Command, Reply};
use addr_simulate::{read_all_reply, read_reply};
use addr_turn::Pass;
use std::alloc::Global;
use std::rt::Clock;
use std::sync::Wait;

/// Puts one order to the session, and gives its reply. Waiting for an operation, it helps with the work.
pub fn play<R: Wait + Clock, F: Fetch, G: Gate>(
    rt: &R,
    alloc: Global,
    session: &Session,
    pass: &mut Pass<Core<Cab>>,
    order: Order,
    fetch: &mut F,
    gate: &G,
) -> Result<Reply, NoMemory>
    requires pass { IsOf session.now pass.old }
    requires scripts { IsScripts (view pass.old) }
    requires order { IsOrder (rows_of (view pass.old)) order }
    ensures pass { IsOf session.now pass.new }
    ensures plays { IfOk result
        (λ reply. PlaysLine F.gives (view pass.old) fetch.old order.command reply (view pass.new) fetch.new) }
{
    let Order { command, ask } = order;
    match command {
        Command::Load { keys, .. } => {
            let answer = session.load(rt, pass, ask.unwrap());
            let reply = load_told(alloc, &keys, answer)?;
            Ok(reply)
        }
        Command::Acquire { op, .. } => Ok(acquire_told(session.acquire(rt, pass, op))),
        Command::Release { op, .. } => Ok(release_told(session.release(rt, pass, op))),
        Command::Status(op) => Ok(status_told(session.status(rt, pass, op))),
        Command::Wait(op) => Ok(status_told(session.wait(rt, pass, op, fetch, gate))),
        Command::References(op) => Ok(Reply::References(session.references(rt, pass, op))),
        Command::Read { op, i } => {
            let answer = session.read(rt, pass, op, i);
            let reply = read_reply(alloc, answer)?;
            Ok(reply)
        }
        Command::ReadAll { op, i } => {
            let answer = session.read_all(rt, pass, op, i);
            let reply = read_all_reply(alloc, answer)?;
            Ok(reply)
        }
        Command::Count(b) => Ok(count_told(session.count(rt, pass, b))),
        Command::Close => Ok(close_told(session.close(rt, pass))),
        Command::Take { .. } => unreachable!(),
        Command::Done { .. } => unreachable!(),
        Command::Fail { .. } => unreachable!(),
    }
}
