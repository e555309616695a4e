// The commands of a script with their keys and types by number: what stands before a session is opened.
ghost use Rattle.std.specs.Prelude.{◌≡◌, IfOk};
ghost use Rattle.addr_script.specs.Commands.{IsOf};
ghost use Rattle.addr_script.specs.declared.command.Grammar.TheVariants.{Load as Live};
ghost use Rattle.addr_live.specs.Orders.{IsOrder, IsAsk};

use addr_base::NoMemory;
use addr_history::Ask;
use addr_locate::Locator;
use addr_script::Command;
use addr_simulate::ask_of;
use std::alloc::Global;

/// A command of the script, and of a load what it asks the machine for.
#[derive(Drop)]
pub struct Order {
    pub command: Command,
    pub ask: Option<Ask>,
}

/// The order that a command of the caller 0 is.
pub fn order_of(alloc: Global, locator: &Locator, command: Command) -> Result<Order, NoMemory>
    requires { IsOf Live command }
    ensures command { IfOk result (λ o. o.command ≡ command) }
    ensures order { IfOk result (IsOrder locator.now) }
{
    let ask = asked(alloc, locator, &command)?;
    Ok(Order { command, ask })
}

fn asked(alloc: Global, locator: &Locator, command: &Command) -> Result<Option<Ask>, NoMemory>
    ensures { IfOk result (IsAsk locator.now command.now) }
{
    match command {
        Command::Load {
            all,
            mode,
            kind,
            keys,
            ..
        } => {
            let ask = ask_of(alloc, locator, *all, *mode, kind, keys)?;
            Ok(Some(ask))
        }
        _ => Ok(None),
    }
}
