//! Updates of a shipped release: what a folder's project changed is put beside what stays, so that each key leads to what the project
//! shows.
//!
//! Promise: `update` answers the numbers of the update that it put, or exactly the first refusal (`specs/Outcomes.antt`). After Ok each
//! key resolves to what the project shows, and at each moment readers find the old release or the new one (`specs/After.antt`).
//! Units: numbers of bundles, entries and puts count from 0. Left out: what is kept and what moves (addr_moves).
//! Start: `specs/After.antt` and `specs/Outcomes.antt`, then `src/updating.rt`.
#![tactic(auto)]

mod error;
mod kept;
mod preparing;
mod putting;
#[cfg(test)]
mod tests;
mod updating;

pub use error::UpdateErr;
pub use updating::update;
