//! The content state of a release, both ways (docs/formats/content-state.md): its bundles and its fixed groups.
//!
//! Promise: unless memory was refused, `read_state` answers the state that bytes are, else exactly the first fault
//! (`specs/Reading.antt`); `write_state` gives its one text, and a state that keeps the rules (`specs/Sound.antt`) reads
//! back as it was (`specs/Written.antt`).
//! Units: sizes in bytes. Left out: what the files hold.
//! Start: `specs/Reading.antt`, then `src/reader.rt`.
#![tactic(auto)]

mod error;
mod files;
mod laws;
mod members;
mod model;
mod reader;
mod rules;
mod seen;
#[cfg(test)]
mod tests;
mod writer;

pub use error::StateErr;
pub use files::{file_name, side_file};
pub use laws::{bundle_name_laws, spelled_bytes, state_laws};
pub use model::{State, StateBundle};
pub use reader::read_state;
pub use writer::write_state;
