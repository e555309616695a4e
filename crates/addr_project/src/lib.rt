//! Project folders: what `project.toml` and the asset files below a folder stand for, or the first fault in them.
//!
//! Promise: `Project::read` answers exactly the project or exactly the first broken test (`specs/Reading.antt`); what each
//! `Project` keeps is an invariant of its type (`specs/Kept.antt`). Beside it stands what a project shows under a key
//! (`specs/Reach.antt`), for the crates that build and update.
//! Units: lengths and counts of bytes; rows and numbers count from 0. Start: `specs/Reading.antt`, then `src/project.rt`.
#![tactic(auto)]

mod asset_files;
mod checking;
mod counts;
mod document;
mod error;
mod groups;
mod laws;
mod limit;
mod loaded;
mod model;
mod names;
mod parts;
mod project;
mod project_file;
mod rows;
#[cfg(test)]
mod tests;
mod text_faults;

pub use addr_expansion::ExpandErr;
pub use error::ProjectErr;
pub use laws::{entry_has_keys, folder_has_one_answer, project_shows_once};
pub use limit::{Limit, Part};
pub use model::{Asset, Entry, Group, Mode};
pub use project::Project;
