// What the journal is made of. An event is plain data, so that definitions over histories need no second set of records.
ghost use Rattle.std.specs.Prelude.{◌≡◌};
ghost use Rattle.addr_history.specs.Events.{number_of, is_load, is_load_of, is_acquire_of, is_release_of, is_close, is_take_of, is_take_by, is_done_of, is_end_of};

use crate::ask::Ask;
use addr_base::{BundleNo, Cause, OpId};

/// What happened to the machine: one event for each accepted call.
#[derive(Debug, Drop)]
pub enum Event {
    /// A caller opened an operation.
    Load {
        op: OpId,
        caller: u32,
        ask: Ask,
    },
    /// A caller took one more reference of an operation.
    Acquire {
        op: OpId,
        caller: u32,
    },
    /// A caller gave a reference of an operation back.
    Release {
        op: OpId,
        caller: u32,
    },
    /// A worker began to fetch a bundle.
    Take {
        b: BundleNo,
        worker: u32,
    },
    /// A worker brought a bundle.
    Done {
        b: BundleNo,
        worker: u32,
    },
    /// A worker could not bring a bundle.
    Fail {
        b: BundleNo,
        worker: u32,
        cause: Cause,
    },
    /// No load is accepted any more.
    Close,
}

impl Event {
    /// The number of its caller or its worker. Close has none.
    pub fn number(&self) -> Option<u32>
        ensures { result ≡ number_of self.now }
    {
        match self {
            Event::Load { caller, .. } => Some(*caller),
            Event::Acquire { caller, .. } => Some(*caller),
            Event::Release { caller, .. } => Some(*caller),
            Event::Take { worker, .. } => Some(*worker),
            Event::Done { worker, .. } => Some(*worker),
            Event::Fail { worker, .. } => Some(*worker),
            Event::Close => None,
        }
    }

    pub fn is_load(&self) -> bool
        ensures { result ≡ is_load self.now }
    {
        matches!(self, Event::Load { .. })
    }

    /// Whether it is the Load of that operation.
    pub fn is_load_of(&self, op: OpId) -> bool
        ensures { result ≡ is_load_of op self.now }
    {
        match self {
            Event::Load { op: loaded, .. } => loaded.0 == op.0,
            _ => false,
        }
    }

    /// Whether it is an Acquire of that operation.
    pub fn is_acquire_of(&self, op: OpId) -> bool
        ensures { result ≡ is_acquire_of op self.now }
    {
        match self {
            Event::Acquire { op: acquired, .. } => acquired.0 == op.0,
            _ => false,
        }
    }

    /// Whether it is a Release of that operation.
    pub fn is_release_of(&self, op: OpId) -> bool
        ensures { result ≡ is_release_of op self.now }
    {
        match self {
            Event::Release { op: released, .. } => released.0 == op.0,
            _ => false,
        }
    }

    pub fn is_close(&self) -> bool
        ensures { result ≡ is_close self.now }
    {
        matches!(self, Event::Close)
    }

    /// Whether it is a Take of that bundle, by any worker.
    pub fn is_take_of(&self, b: BundleNo) -> bool
        ensures { result ≡ is_take_of b self.now }
    {
        match self {
            Event::Take { b: taken, .. } => taken.0 == b.0,
            _ => false,
        }
    }

    /// Whether it is a Take of that bundle by that worker.
    pub fn is_take_by(&self, b: BundleNo, by: u32) -> bool
        ensures { result ≡ is_take_by b by self.now }
    {
        match self {
            Event::Take { b: taken, worker } => taken.0 == b.0 && *worker == by,
            _ => false,
        }
    }

    pub fn is_done_of(&self, b: BundleNo) -> bool
        ensures { result ≡ is_done_of b self.now }
    {
        match self {
            Event::Done { b: done, .. } => done.0 == b.0,
            _ => false,
        }
    }

    /// Whether it is a Done or a Fail of that bundle.
    pub fn is_end_of(&self, b: BundleNo) -> bool
        ensures { result ≡ is_end_of b self.now }
    {
        match self {
            Event::Done { b: ended, .. } => ended.0 == b.0,
            Event::Fail { b: ended, .. } => ended.0 == b.0,
            _ => false,
        }
    }
}
