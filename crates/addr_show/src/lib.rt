//! Commands that show what is copied in a project, and that end it, each in a room of its own: `analyze` and `isolate`.
//!
//! Promise: `run_analyze` ends as `specs/Analyzing.antt` says: the duplicates of the folder's project are printed by one put, or why
//! there are none to be told, and the status is that end's. No file changes. `run_isolate` ends as `specs/Isolating.antt` says: the
//! folder stands for the project in which each duplicate is an entry, or nothing was put, and one line says which. Start:
//! `specs/Analyzing.antt`, then `src/running.rt` and `src/analyzing.rt`; `specs/Isolating.antt`, then `src/running_isolate.rt` and
//! `src/isolating.rt`.
#![tactic(auto)]

mod analyzing;
mod error;
mod isolating;
mod printing;
mod running;
mod running_isolate;
#[cfg(test)]
mod tests;
mod texts;

pub use analyzing::analyze;
pub use error::AnalyzeErr;
pub use isolating::{NewGroup, isolate};
pub use running::run_analyze;
pub use running_isolate::run_isolate;
