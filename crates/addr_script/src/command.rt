// What a script asks for, line by line. A command is plain data, so that definitions over scripts need no second set of
// records. Which commands a script may have differs by who plays it.
ghost use Rattle.std.specs.Prelude.{◌≡◌};
ghost use Rattle.addr_script.specs.Commands.{takes};
ghost use Rattle.addr_script.specs.declared.command.Grammar.TheVariants.{Simulate, Load as Live};

use addr_base::{BundleNo, Cause, Items, OpId, Text};
use addr_locate::Merge;

/// One line of a script.
#[derive(Drop)]
pub enum Command {
    /// Opens an operation on the rows that the keys lead to, or on the first of them alone where `all` is false.
    Load {
        caller: u32,
        all: bool,
        mode: Merge,
        /// The type that is asked for; None for any.
        kind: Option<Text>,
        keys: Items<Text>,
    },
    /// Takes one reference more of an operation.
    Acquire {
        caller: u32,
        op: OpId,
    },
    /// Gives a reference of an operation back.
    Release {
        caller: u32,
        op: OpId,
    },
    Status(OpId),
    /// How far an operation is, once it is no longer pending. Only where workers play a part.
    Wait(OpId),
    /// How many references an operation has.
    References(OpId),
    /// The bytes of the asset that an operation's i-th row is.
    Read {
        op: OpId,
        i: u32,
    },
    /// The asset that an operation's i-th row is, with all that it leads to.
    ReadAll {
        op: OpId,
        i: u32,
    },
    Count(BundleNo),
    Close,
    Take {
        worker: u32,
    },
    Done {
        worker: u32,
        b: BundleNo,
    },
    Fail {
        worker: u32,
        b: BundleNo,
        cause: Cause,
    },
}

/// Who plays a script, which says which commands it may have.
#[derive(Clone, Copy)]
pub enum Grammar {
    /// One thread plays all: the workers' commands stand in the script, and nothing is waited for.
    Simulate,
    /// Workers run beside the script, which has one caller, 0.
    Load,
}

impl Grammar {
    /// Whether a script may have the command.
    pub fn takes(self, command: &Command) -> bool
        ensures { result ≡ takes self command.now }
    {
        match self {
            Grammar::Simulate => is_simulated(command),
            Grammar::Load => is_live(command),
        }
    }
}

fn is_simulated(command: &Command) -> bool
    ensures { result ≡ takes Simulate command.now }
{
    match command {
        Command::Wait(_) => false,
        _ => true,
    }
}

fn is_live(command: &Command) -> bool
    ensures { result ≡ takes Live command.now }
{
    match command {
        Command::Load { caller, .. } => *caller == 0,
        Command::Acquire { caller, .. } => *caller == 0,
        Command::Release { caller, .. } => *caller == 0,
        Command::Take { .. } => false,
        Command::Done { .. } => false,
        Command::Fail { .. } => false,
        _ => true,
    }
}
