//! Duplicates in a placement: assets that are no entries and are copied into several bundles.
//!
//! Promise: `duplicates` gives exactly these, in the order of their GUIDs, with the number of their bundles and what that wastes
//! (`specs/Duplicates.antt`). Units: wasted bytes are those of all copies but one. Left out: a project in which nothing is copied
//! twice. Start: `specs/Duplicates.antt`, then `src/finding.rt`.
#![tactic(auto)]

mod counting;
mod duplicate;
mod finding;
mod laws;
#[cfg(test)]
mod tests;

pub use duplicate::Duplicate;
pub use finding::{duplicates, wasted};
pub use laws::{duplicates_are_one, isolation_laws};
