//! The four tables of a catalogue: keys, buckets, entries and extra data, as base64 texts (docs/formats/keys-and-tables.md).
//!
//! Promise: `decode` answers the rows that four texts stand for (`specs/Rows.antt`), else exactly the first fault
//! (`specs/Faults.antt`). `encode` gives the one written form of rows (`specs/Written.antt`), whose sizes `are_small` measures beforehand (`specs/Sizes.antt`).
//! Units: offsets and lengths in bytes; numbers have four bytes, the low one first, and are read as signed.
//! Start: `specs/Rows.antt`, then `src/decoder.rt`.
#![tactic(auto)]

mod decoder;
mod encoder;
mod error;
mod laws;
mod parts;
mod rows;
mod sections;
mod seen;
mod sizes;

pub use decoder::decode;
pub use encoder::encode;
pub use error::TableErr;
pub use laws::table_laws;
pub use rows::{EntryRow, Rows, Tables};
pub use sizes::are_small;

#[cfg(test)]
mod tests;
