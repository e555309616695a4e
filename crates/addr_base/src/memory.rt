// The two refusals that say nothing more: memory was refused, and a call on the outside failed.
use std::alloc::{AllocError, AllocFailed};

/// The allocator refused. What the call was to change is as the call's clauses say.
#[derive(Clone, Copy, Debug, PartialEq, Eq, Drop)]
pub struct NoMemory;

impl From<AllocError> for NoMemory {
    fn from(_: AllocError) -> Self {
        NoMemory
    }
}

impl<T: Drop> From<AllocFailed<T>> for NoMemory {
    fn from(_: AllocFailed<T>) -> Self {
        NoMemory
    }
}

/// A call on the outside failed; the count of faults of what was called says so.
#[derive(Clone, Copy)]
pub struct Failed;
