// What `load` prints: a script is played beside its workers, and the journal stands behind its lines.
ghost use Rattle.std.specs.Prelude.{◌≡◌, ◌<◌, ◌≤◌, ◌++◌, IfSome, length, map, string_bytes};
ghost use Rattle.std.specs.List.{AllByRecursion};
ghost use Rattle.std.specs.Option.{IsSomeAnd};
ghost use Rattle.addr_live.specs.LiveText.{journal_text};
ghost use Rattle.addr_live.specs.Orders.{IsOrder};
ghost use Rattle.addr_live.specs.Whole.{PlaysBeside};

use crate::journal::push_journal;
use crate::order::Order;
use crate::running::run_whole;
use addr_base::Text;
use addr_cab::Cab;
use addr_core::Core;
use addr_fetch::{Fetch, Gate};
use addr_locate::Locator;
use std::alloc::Global;
use std::rt::Clock;
use std::sync::Wait;
use std::thread::Threads;

/// The text, where memory was there, and the fetchers as they came back, in their order.
#[derive(Drop)]
pub struct Beside<F> {
    pub text: Option<Text>,
    pub fetchers: Vec<F>,
    pub fetch: F,
}

/// Plays the orders of a script on a machine of its own over the rows, one fetcher of the list beside each worker and `fetch`
/// beside the script, which helps while it waits. May wait: for a turn, for an operation, and for the workers' end. The list and
/// the fetchers come back for want of memory too.
pub fn play_beside<R: Threads + Wait + Clock + Sync, F: Fetch + Send + Drop, G: Gate + Sync>(
    rt: &R,
    alloc: Global,
    locator: Locator,
    limit: u32,
    orders: Vec<Order>,
    fetchers: Vec<F>,
    fetch: F,
    gate: &G,
) -> Beside<F>
    requires limit { (1 ≤ limit) × (limit ≤ 1000000) }
    requires workers { (0 < length fetchers.items) × (length fetchers.items ≤ 16) }
    requires orders { AllByRecursion (IsOrder locator) orders.items }
    ensures { IfSome result.text (λ text. PlaysBeside F.gives locator limit (map (λ o. o.command) orders.items)
        fetchers.items result.fetchers.items fetch result.fetch text) }
{
    match Core::open(alloc, locator, limit) {
        Ok(core) => {
            let ended = run_whole(rt, alloc, core, fetchers, fetch, orders, gate);
            Beside {
                text: whole_text(alloc, ended.core, ended.text),
                fetchers: ended.fetchers,
                fetch: ended.fetch,
            }
        }
        Err(_) => Beside {
            text: None,
            fetchers,
            fetch,
        },
    }
}

/// The lines' text with the journal behind it.
fn whole_text(alloc: Global, core: Option<Core<Cab>>, text: Option<String>) -> Option<Text>
    ensures { IfSome result (λ whole. IsSomeAnd core (λ m. IsSomeAnd text (λ t. whole ≡ string_bytes t ++ journal_text m.rows m.history))) }
{
    let (Some(core), Some(mut text)) = (core, text) else {
        return None;
    };
    match push_journal(alloc, &mut text, core.locator(), core.journal()) {
        Ok(()) => Some(Text::from_string(text)),
        Err(_) => None,
    }
}
