//! Rows of a TOML document's tables: what their members stand for, the first row that is bad, and keys found by an index.
//!
//! Promise: each reader answers exactly what a member or a row stands for (`specs/Fields.antt`, `specs/Variables.antt`); what
//! reads a table answers its rows up to the first bad one (`specs/Readings.antt`); an index has the place of each key, or the
//! first row whose key repeats an earlier one (`specs/Places.antt`).
//! Units: lengths in bytes; rows count from 0. Start: `specs/Fields.antt`, then `src/fields.rt`.
#![tactic(auto)]

pub mod fields;
mod index;
mod keys;
mod labels;
mod reader;
#[cfg(test)]
mod tests;
pub mod texts;

pub use index::{Index, Indexed, Keyed};
pub use keys::{first_repeat, index_rows};
pub use labels::labels_at;
pub use reader::{Row, Rows, list_at, row_number, rows_read, variables_read};
