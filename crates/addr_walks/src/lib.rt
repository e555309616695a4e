//! Walks of steps, and lists of sets in ascending order: the words for everything that is reached from something, and one
//! search over rows of numbers that finds it.
//!
//! Promise: `Search` answers exactly the numbers to which walks lead, `closed` exactly the dependency lists
//! (`specs/Rows.antt`, `specs/Closure.antt`).
//! Start: `specs/Walks.antt`.
#![tactic(auto)]

mod closure;
mod marking;
mod searching;
#[cfg(test)]
mod tests;

pub use closure::{are_below, closed};
pub use searching::Search;
