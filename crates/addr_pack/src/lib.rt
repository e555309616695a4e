//! Bundles of a project: which entries share a bundle, and what the bundles are named (docs/formats/names.md).
//!
//! Promise: `plan` answers exactly the one placement of a project, or the first entry whose bundle's name is too long
//! (`specs/LongNames.antt`); `placement_laws` says what holds of every placement (`specs/Laws.antt`).
//! Units: lengths in bytes; numbers of bundles, groups and entries count from 0. Left out: the plan of an update.
//! Start: `specs/SameBundle.antt`, then `specs/Naming.antt` and `specs/Placement.antt`.
#![tactic(auto)]

mod bundles;
mod class;
mod error;
mod laws;
mod naming;
mod placement;
mod plain;
#[cfg(test)]
mod tests;

pub use bundles::{Plan, PlanBundle};
pub use error::PlanErr;
pub use laws::{name_laws, placement_laws};
pub use placement::plan;
pub use plain::names_are_plain;
