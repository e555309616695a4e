//! Sessions: the loading machine used by many threads, one turn at a time, and workers that fetch for it.
//!
//! Promise: each call of a `Session` answers as the machine does at one history, which goes on from all that the caller's pass
//! had seen, and records its own event alone (`specs/Turn.antt`); a piece of work is one Take, one fetch and the end that its
//! answer says (`specs/Works.antt`); workers go on until the session is closed and nothing is queued (`specs/Teams.antt`).
//! Units: sizes in bytes; bundles, operations and callers count from 0.
//! Left out: that a thread runs, and that a wait ends. Start: `specs/Turn.antt`, then `src/session.rt` and `src/worker.rt`.
#![tactic(auto)]

mod asking;
mod calls;
mod finishing;
mod job;
mod judging;
mod session;
mod team;
#[cfg(test)]
mod tests;
mod waiting;
mod worker;

pub use session::Session;
pub use team::{Team, run_workers};
pub use worker::Worked;
