//! Rows of a catalogue: bundles and assets under keys and types, and which rows and bundles some keys lead to.
//!
//! Promise: `Locator::locate` answers the rows of `specs/Merge.antt`, `Locator::deps` their distinct bundles, and
//! `read_rows` the rows that a file in the plain form spells, else its first bad line (`specs/PlainRows.antt`).
//! Units: sizes in bytes; numbers count from 0. Left out: which files hold the bundles.
//! Start: `specs/Rows.antt`, then `src/locator.rt`.
#![tactic(auto)]

mod error;
mod evaluation;
mod laws;
mod locator;
mod merging;
mod names;
mod numbering;
mod plain_fields;
mod plain_lists;
mod plain_reader;
mod plain_writer;
mod postings;
mod rows;
#[cfg(test)]
mod tests;
mod texts;

pub use error::RowsErr;
pub use laws::plain_laws;
pub use locator::Locator;
pub use numbering::of_rows;
pub use plain_reader::read_rows;
pub use plain_writer::write_rows;
pub use rows::{AssetRow, BundleRow, Kind, Merge, PlainAsset};
