//! Catalogues: the rows and the state that a document's bytes stand for, both ways (docs/formats/catalogue.md).
//!
//! Promise: `read_catalog` answers the catalogue that bytes stand for, else exactly the first fault
//! (`specs/Catalogue.antt`), and `write_catalog` the one text of a catalogue that can be written, which `can_write` decides
//! (`specs/Written.antt`); the text reads back as alike rows with the same state (`specs/ReadsAlike.antt`).
//! Units: sizes in bytes; entries, keys and rows count from 0.
//! Start: `specs/Catalogue.antt`, then `src/reader.rt`.
#![tactic(auto)]

mod bounds;
mod catalogue;
mod entry_rows;
mod error;
mod internal_ids;
mod inverted;
mod key_numbers;
mod keys;
mod laws;
mod listed;
mod numbering;
mod reader;
mod roles;
#[cfg(test)]
mod tests;
mod writer;
mod written_rows;

pub use bounds::can_write;
pub use catalogue::Catalogue;
pub use error::CatErr;
pub use laws::catalogue_laws;
pub use reader::read_catalog;
pub use writer::write_catalog;
