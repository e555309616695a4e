//! The commands that change or show a release: `build`, `check`, `update` and `resolve`.
//!
//! Promise: `run_build` ends as `specs/Building.antt` says: the words' folder is built, its end's line is printed by one put, and
//! the status is that end's; `run_resolve` as `specs/Resolving.antt`: what the folder's files show under the words' key is
//! printed so; `run_check` as `specs/Checking.antt`: what an update of the folder would move; `run_update` as
//! `specs/Updating.antt`: the folder's release is updated. Left out: `isolate`, which changes a project (addr_show).
//! Start: `specs/Building.antt`, `specs/Updating.antt`, `specs/Resolving.antt`, `specs/Checking.antt`, then `src/building.rt`.
#![tactic(auto)]

mod building;
mod check_text;
mod checking;
mod printing;
mod resolved_text;
mod resolving;
#[cfg(test)]
mod tests;
mod updating;

pub use building::run_build;
pub use checking::run_check;
pub use resolving::run_resolve;
pub use updating::run_update;
