//! The document of a catalogue in JSON, both ways (docs/formats/catalogue.md): its members, and the options of its bundles.
//!
//! Promise: unless memory was refused, `read_document` answers the document that bytes are, else exactly the first fault
//! (`specs/Document.antt`), and `read_options` the options that a text is (`specs/Options.antt`); `write_document` and
//! `write_options` give the one text of each, which reads back as it was (`specs/Written.antt`).
//! Units: sizes in bytes. Left out: what the tables in the document stand for.
//! Start: `specs/Document.antt`, then `src/document.rt`.
#![tactic(auto)]

mod document;
mod error;
mod laws;
mod members;
mod options;
#[cfg(test)]
mod tests;
mod writer;

pub use document::{Document, Lists, Strings, read_document};
pub use error::DocErr;
pub use laws::document_laws;
pub use options::{BundleOptions, read_options};
pub use writer::{write_document, write_options};
