// A script beside workers as the orders that it is, over rows whose ids have the values that it sets.
ghost use Rattle.std.specs.Prelude.{◌≡◌, ◌≤◌, ◌++◌, ◌∷◌, [], IfErr, IfOk, IfSome, OnOk, Err, Ok, map, unwrap_or};
ghost use Rattle.std.specs.List.{AllByRecursion};
ghost use Rattle.addr_script.specs.Commands.{IsOf};
ghost use Rattle.addr_script.specs.ScriptParts.{ReadsFrom};
ghost use Rattle.addr_script.specs.Scripts.{IsLimit};
ghost use Rattle.addr_script.specs.declared.command.Grammar.TheVariants.{Load as Live};
ghost use Rattle.addr_live.specs.Orders.{IsOrder};
ghost use Rattle.addr_live.specs.declared.order.Order.{Order as OrderOf};
ghost use Rattle.addr_live.specs.Prepares.{PreparesAs};

use crate::order::{Order, order_of};
use addr_base::NoMemory;
use addr_locate::Locator;
use addr_script::{Command, Grammar, ScriptErr, next_command, read_head};
use std::alloc::Global;

/// The most events of a script without a limit.
const DEFAULT_LIMIT: u32 = 100_000;

/// What a script needs to be played: the rows, the most events, and the orders.
#[derive(Drop)]
pub struct Prepared {
    pub locator: Locator,
    pub limit: u32,
    pub orders: Vec<Order>,
}

/// The orders of a script over rows, whose bundles' ids get the values of the script's variables; or its first bad line.
pub fn read_orders(alloc: Global, locator: Locator, bytes: &[u8]) -> Result<Prepared, ScriptErr>
    ensures { PreparesAs locator bytes.now result }
{
    let head = read_head(alloc, bytes)?;
    let mut locator = locator;
    locator.evaluate(alloc, head.vars.as_slice())?;
    let orders = orders_of(alloc, &locator, head.rest, head.next)?;
    Ok(Prepared {
        locator,
        limit: limit_of(head.limit),
        orders,
    })
}

fn limit_of(limit: Option<u32>) -> u32
    requires { IfSome limit IsLimit }
    ensures is { result ≡ unwrap_or limit 100000 }
    ensures fits { IsLimit result }
{
    match limit {
        Some(limit) => limit,
        None => DEFAULT_LIMIT,
    }
}

/// The orders of lines of which the first has that number in the script.
fn orders_of(
    alloc: Global,
    locator: &Locator,
    bytes: &[u8],
    first: u32,
) -> Result<Vec<Order>, ScriptErr>
    requires { first ≤ 100001 }
    ensures read { IfOk result (λ os. ReadsFrom Live bytes.now first (Ok (map (λ o. o.command) os.items))) }
    ensures orders { IfOk result (λ os. AllByRecursion (IsOrder locator.now) os.items) }
    ensures bad { IfErr result (λ e. ReadsFrom Live bytes.now first (Err e)) }
{
    let mut orders = Vec::new(alloc);
    let mut rest = bytes;
    let mut number = first;
    while let Some((command, after)) = next_command(alloc, Grammar::Load, rest, number)? {
        add_order(alloc, locator, &mut orders, command)?;
        rest = after;
        number += 1;
    }
    Ok(orders)
}

fn add_order(
    alloc: Global,
    locator: &Locator,
    orders: &mut Vec<Order>,
    command: Command,
) -> Result<(), NoMemory>
    requires { IsOf Live command }
    ensures { OnOk result ((o : OrderOf) × (o.command ≡ command) × IsOrder locator.now o
        × (orders.new.items ≡ orders.old.items ++ o ∷ [])) }
{
    let order = order_of(alloc, locator, command)?;
    orders.push(order)?;
    Ok(())
}
