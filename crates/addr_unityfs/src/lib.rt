//! Bundle files: reads and writes the uncompressed UnityFS profile, whole or as they arrive (docs/formats/unityfs.md).
//!
//! Promise: `read_bundle` answers the one bundle that the bytes are (`specs/Format.antt`), else their first fault
//! (`specs/Faults.antt`); `BundleReader` answers the same of a file in pieces, and a fault early (`specs/Early.antt`);
//! what `write_bundle` writes (`specs/Written.antt`) reads back as its nodes.
//! Units: offsets and sizes in bytes; integers in the file are big-endian.
//! Left out: compressed blocks. Start: `specs/Spelling.antt`, `specs/Format.antt`, then `src/reader.rt`.
#![tactic(auto)]

mod arriving;
mod blocks_info;
mod bundle;
mod cursor;
mod error;
mod feeding;
mod fields;
mod flags;
mod header;
mod laws;
mod pouring;
mod put;
mod reader;
mod sections;
mod sizes;
mod stage;
mod writer;

pub use arriving::{Arrived, BundleReader};
pub use bundle::{Bundle, NodeOut, NodePlace, NodeSize};
pub use error::FsErr;
pub use laws::{bundle_laws, early_laws};
pub use reader::read_bundle;
pub use sizes::bundle_size;
pub use writer::write_bundle;

#[cfg(test)]
mod tests;
