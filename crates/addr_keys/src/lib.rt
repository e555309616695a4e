//! Serialized keys: the objects by which a catalogue's tables name their rows (docs/formats/keys-and-tables.md).
//!
//! Promise: `write_key` appends the one written form of a key (`specs/Format.antt`). `read_key` answers the key whose form
//! begins at a place and the place where it ends, else exactly the first fault (`specs/Faults.antt`). `key_size` tells
//! beforehand how many bytes are written.
//! Units: places and lengths in bytes, but UTF-16 units of two bytes; integers are little-endian.
//! Start: `specs/Format.antt`, then `src/reader.rt`.
#![tactic(auto)]

mod error;
mod key;
mod laws;
mod reader;
mod sizes;
mod texts;
mod writer;

pub use error::KeyErr;
pub use key::Key;
pub use laws::key_laws;
pub use reader::read_key;
pub use sizes::key_size;
pub use writer::write_key;

#[cfg(test)]
mod tests;
