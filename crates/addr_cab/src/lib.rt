//! Asset tables: which objects a bundle file holds, where their bytes lie, and what they refer to.
//!
//! Promise: `write_cab` gives the one table and data of objects (`specs/Written.antt`), `write_cab_file` a bundle file
//! that holds them, and `read_cab` answers the objects that a file holds (`specs/Objects.antt`), or the table's first
//! fault (`specs/Faults.antt`); a `Cab` lends exactly the bytes of its file that an object's row names
//! (`specs/Lookup.antt`); sizes are told by lengths alone (`specs/Sizes.antt`).
//! Units: offsets and sizes in bytes; integers in a table are little-endian.
//! Start: `specs/Spelling.antt`, then `specs/Written.antt`, `specs/Objects.antt`, `src/cab.rt` and `src/writer.rt`.
#![tactic(auto)]

mod ascending;
mod cab;
mod cursor;
mod ending;
mod error;
mod fields;
mod file;
mod homes;
mod laws;
mod names;
mod naming;
mod nodes;
mod object;
mod parts;
mod put;
mod reader;
mod search;
mod sizes;
mod writer;

pub use cab::{Cab, read_cab};
pub use error::CabErr;
pub use file::write_cab_file;
pub use laws::table_laws;
pub use naming::internal_name;
pub use object::{ObjectOut, ObjectRow, ObjectSize};
pub use sizes::{CabSize, cab_file_size, cab_size};
pub use writer::write_cab;

#[cfg(test)]
mod tests;
