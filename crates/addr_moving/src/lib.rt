//! The placement of an update: bundles that are kept beside the project's own of groups that aren't fixed, and one of all
//! entries that move.
//!
//! Promise: `plan_moved` answers the placement of what is kept and what moves (`specs/Kept.antt` has its condition).
//! Units: numbers of groups and entries count from 0. Left out: what is kept and what moves. Start: `src/moving.rt`.
#![tactic(auto)]

mod moving;

pub use moving::plan_moved;
