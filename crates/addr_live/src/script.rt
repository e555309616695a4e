// The orders of a script on a session, one after the other, and a close behind them; each reply and its place on a line.
ghost use Rattle.std.specs.Prelude.{◌≡◌, [], IfOk, IfSome, OnOk, map, string_bytes};
ghost use Rattle.std.specs.List.{AllByRecursion};
ghost use Rattle.addr_turn.specs.Held.{view};
ghost use Rattle.addr_loader.specs.Sessions.{IsOf};
ghost use Rattle.addr_loader.specs.Turn.{rows_of};
ghost use Rattle.addr_live.specs.Orders.{IsOrder};
ghost use Rattle.addr_live.specs.Plays.{PlaysAs, PlaysLines, RanScript};
ghost use Rattle.addr_live.specs.Steps.{IsScripts};

use crate::order::Order;
use crate::playing::play;
use addr_base::NoMemory;
use addr_cab::Cab;
use addr_core::Core;
use addr_fetch::{Fetch, Gate};
use addr_loader::Session;
use addr_turn::Pass;
use std::alloc::Global;
use std::fmt::Write;
use std::rt::Clock;
use std::sync::Wait;

/// What a script leaves: its pass and its fetcher, and the text of its lines, where memory was there.
#[derive(Drop)]
pub struct Ran<F> {
    pub pass: Pass<Core<Cab>>,
    pub fetch: F,
    pub text: Option<String>,
}

fn play_line<R: Wait + Clock, F: Fetch, G: Gate>(
    rt: &R,
    alloc: Global,
    session: &Session,
    pass: &mut Pass<Core<Cab>>,
    order: Order,
    fetch: &mut F,
    gate: &G,
    text: &mut String,
) -> Result<(), NoMemory>
    requires pass { IsOf session.now pass.old }
    requires scripts { IsScripts (view pass.old) }
    requires order { IsOrder (rows_of (view pass.old)) order }
    ensures pass { IsOf session.now pass.new }
    ensures plays { OnOk result (PlaysAs F.gives (view pass.old) fetch.old order.command (string_bytes text.old)
        (view pass.new) fetch.new (string_bytes text.new)) }
{
    let reply = play(rt, alloc, session, pass, order, fetch, gate)?;
    let place = pass.length();
    writeln!(text, "{reply} @{place}")?;
    Ok(())
}

fn play_all<R: Wait + Clock, F: Fetch, G: Gate>(
    rt: &R,
    alloc: Global,
    session: &Session,
    pass: &mut Pass<Core<Cab>>,
    orders: Vec<Order>,
    fetch: &mut F,
    gate: &G,
) -> Result<String, NoMemory>
    requires pass { IsOf session.now pass.old }
    requires scripts { IsScripts (view pass.old) }
    requires orders { AllByRecursion (IsOrder (rows_of (view pass.old))) orders.items }
    ensures pass { IsOf session.now pass.new }
    ensures plays { IfOk result (λ text. PlaysLines F.gives (view pass.old) fetch.old
        (map (λ o. o.command) orders.items) (string_bytes text) (view pass.new) fetch.new) }
{
    let mut text = String::new(alloc);
    for order in orders {
        play_line(rt, alloc, session, pass, order, fetch, gate, &mut text)?;
    }
    Ok(text)
}

/// Plays the script, and closes the session behind it, whether memory was there or not.
pub fn run_script<R: Wait + Clock, F: Fetch, G: Gate>(
    rt: &R,
    alloc: Global,
    session: &Session,
    orders: Vec<Order>,
    gate: &G,
    pass: Pass<Core<Cab>>,
    fetch: F,
) -> Ran<F>
    requires pass { IsOf session.now pass }
    requires scripts { IsScripts (view pass) }
    requires orders { AllByRecursion (IsOrder (rows_of (view pass))) orders.items }
    ensures pass { IsOf session.now result.pass }
    ensures ran { IfSome result.text (λ text. RanScript F.gives (view pass) fetch
        (map (λ o. o.command) orders.items) (string_bytes text) (view result.pass) result.fetch) }
{
    let mut pass = pass;
    let mut fetch = fetch;
    let played = play_all(rt, alloc, session, &mut pass, orders, &mut fetch, gate);
    session.close(rt, &mut pass);
    Ran {
        pass,
        fetch,
        text: played.ok(),
    }
}
