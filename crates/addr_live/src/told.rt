// What the answers of a session are told as.
ghost use Rattle.std.specs.Prelude.{◌≡◌, IfOk, OnOk, Err};
ghost use Rattle.addr_history.specs.declared.error.LoadErr.TheVariants.{NoMemory as LoadNoMemory};
ghost use Rattle.addr_simulate.specs.SimText.{acquire_answer, close_answer, count_answer, load_answer, release_answer, status_answer};

use addr_base::{Items, NoMemory, OpId, Text};
use addr_core::{AcquireErr, BundleState, LoadErr, NoHandle, OpStatus};
use addr_script::Reply;
use addr_simulate::named_key;
use std::alloc::Global;

/// What a load is told; want of memory ends the run.
pub fn load_told(
    alloc: Global,
    keys: &Items<Text>,
    answer: Result<OpId, LoadErr>,
) -> Result<Reply, NoMemory>
    ensures told { IfOk result (λ reply. reply ≡ load_answer keys.now answer) }
    ensures given { OnOk result (answer ≡ Err LoadNoMemory → ⊥) }
{
    match answer {
        Ok(op) => Ok(Reply::Opened(op)),
        Err(LoadErr::Closed) => Ok(Reply::Closed),
        Err(LoadErr::NoLocation { first }) => Ok(Reply::NoLocation(named_key(alloc, keys, first)?)),
        Err(
            LoadErr::JournalFull {
                used,
                reserved,
                needed,
            },
        ) => Ok(Reply::JournalFull {
            used,
            reserved,
            needed,
        }),
        Err(LoadErr::NoMemory) => Err(NoMemory),
    }
}

pub fn acquire_told(answer: Result<(), AcquireErr>) -> Reply
    ensures { result ≡ acquire_answer answer }
{
    match answer {
        Ok(()) => Reply::Acquired,
        Err(AcquireErr::NoHandle) => Reply::NoHandle,
        Err(
            AcquireErr::JournalFull {
                used,
                reserved,
                needed,
            },
        ) => Reply::JournalFull {
            used,
            reserved,
            needed: u64::from(needed),
        },
    }
}

pub fn release_told(answer: Result<(), NoHandle>) -> Reply
    ensures { result ≡ release_answer answer }
{
    match answer {
        Ok(()) => Reply::Released,
        Err(_) => Reply::NoHandle,
    }
}

pub fn status_told(answer: Result<OpStatus, NoHandle>) -> Reply
    ensures { result ≡ status_answer answer }
{
    match answer {
        Ok(status) => Reply::Status(status),
        Err(_) => Reply::NoHandle,
    }
}

pub fn count_told(answer: Option<(u32, BundleState)>) -> Reply
    ensures { result ≡ count_answer answer }
{
    match answer {
        Some((count, state)) => Reply::Counted(count, state),
        None => Reply::NoBundle,
    }
}

pub fn close_told(answer: bool) -> Reply
    ensures { result ≡ close_answer answer }
{
    if answer {
        Reply::NowClosed
    } else {
        Reply::Closed
    }
}
