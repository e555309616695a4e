//! The loading machine: loads, acquires, fetches, failures and releases are events of one journal, from which every answer follows.
//!
//! Promise: each call of `Core` answers as the definitions of `addr_history` say of the journal so far, adds exactly its own
//! event, and a refused call changes nothing; the journal is a legal history.
//! How: beside the journal stand counts, places and the queue, so that no call but `open` walks the journal or all bundles.
//! Units: operations, bundles and places count from 0; the limit is a number of events.
//! Left out: what is in a bundle's image. Start: `specs/Machine.antt`, then `src/machine.rt`.
#![tactic(auto)]

mod courses;
mod images;
mod machine;
mod now;
mod prepare;
mod reading;
mod start;
#[cfg(test)]
mod tests;
mod told;
mod waiters;
mod wanted;

pub use addr_history::{
    AcquireErr, Ask, BundleState, Event, Item2, LoadErr, Next, NoHandle, NotTaken, OpStatus,
    ReadErr, Settled,
};
pub use machine::Core;
