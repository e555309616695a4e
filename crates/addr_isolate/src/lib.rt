//! Project files in which nothing is copied twice: each duplicate is an entry of a group of its own.
//!
//! Promise: where the text that `isolate` gives is put in the place of a folder's project file, the folder stands for the isolated
//! project (`specs/Isolating.antt`, over `IsIsolated` of addr_analyze). Members that the format has stay as they are
//! (`specs/Document.antt`); others, and comments, are left out. Start: `specs/Isolating.antt`, then `src/isolating.rt`.
#![tactic(auto)]

mod document;
mod error;
mod folder;
mod isolating;
mod laws;
mod members;
mod naming;
#[cfg(test)]
mod tests;

pub use error::IsolateErr;
pub use folder::isolate_folder;
pub use isolating::{Isolation, isolate};
pub use laws::isolated_has_none;
