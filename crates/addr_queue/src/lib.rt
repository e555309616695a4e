//! Where bundles stand: one slot for each, and the queue of those that wait, joined at its end, left from anywhere, each in a few
//! steps and without memory.
//!
//! Promise: a queue is the list of its bundles in order (`specs/Queue.antt`), and each call says what it does to that list; a slot
//! is plain data, and each call says what it does to the slots (`specs/Slots.antt`).
//! Units: bundles count from 0; a queue is for the bundles below a number that is given once.
//! Left out: what of a history slots and queue say (`addr_core`). Start: `specs/Queue.antt`, then `src/queue.rt`.
#![tactic(auto)]

mod queue;
mod queueing;
mod slots;
#[cfg(test)]
mod tests;

pub use queue::Queue;
pub use queueing::{join_each, leave_each};
pub use slots::{
    Slot, end_slot, is_counted, is_idle, is_missing, is_out, is_taken_by, lacking, let_go_each,
    slot_at, take_in_each, take_slot,
};
