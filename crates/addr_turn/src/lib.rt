//! A turn lock: one state for all threads, with one history that each of them knows a prefix of (docs/turn-lock.md).
//!
//! Promise: what a pass knows of the history is true of it (`specs/OneHistory.antt`), whatever other threads do; each call
//! says what the pass knows after it (`specs/Steps.antt`). Nothing is promised of progress, fairness or time.
//! Units: numbers of passes are below 2^32; lengths and places count entries.
//! Left out: a lock that is given up by dropping it; `close` ends it. Start: `specs/OneHistory.antt`, then `src/inside.rt`.
#![tactic(auto)]

mod board;
mod inside;
mod lock;
mod pass;
mod plays;
mod tally;
#[cfg(test)]
mod tests;
mod turns;

pub use addr_base::Told;
pub use board::{Board, Law, Place, Role, View};
pub use lock::{Inside, Pass, Recorded, Turns};
