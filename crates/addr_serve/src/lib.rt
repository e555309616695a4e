//! Serving: one request a connection, one connection after the other, and one line for each as it is finished.
//!
//! Promise: each line is what was written to its connection, or why nothing was (`specs/Serving.antt`), in the order in
//! which the connections were accepted. No handle is taken: listener, depot and sink come from outside.
//! Start: `specs/Serving.antt`, then `src/serving.rt`.
#![tactic(auto)]

mod lines;
mod serving;
#[cfg(test)]
mod tests;

pub use serving::{Ended, serve};
