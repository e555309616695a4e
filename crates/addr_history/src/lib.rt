//! Histories of the loading machine: the events, and what the machine answers to each call at each history.
//!
//! Promise: definitions alone. A reply is a function of rows, limit and history (`specs/Answers.antt`); a history is legal
//! where each event is the answer at the events before it (`specs/Legal.antt`). Laws on legal histories, and worked
//! examples that are computed from the definitions, are the clauses of two calls (`src/laws.rt`).
//! Units: operations, bundles and places count from 0; the limit is a number of events.
//! Left out: the machine itself (`addr_core`). Start: `specs/Events.antt`, then `specs/Answers.antt`.
#![tactic(auto)]

mod answers;
mod ask;
mod error;
mod event;
mod laws;
mod reading;

pub use answers::{BundleState, Next, NoHandle, NotTaken, OpStatus, Settled};
pub use ask::Ask;
pub use error::{AcquireErr, LoadErr};
pub use event::Event;
pub use laws::{legal_histories, one_answer, without_acquires, worked_examples};
pub use reading::{Item2, Place, ReadErr};
