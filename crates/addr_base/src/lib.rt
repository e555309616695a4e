//! What every crate above names: texts and lists as contracts see them, numbers, digests, tokens, and the traits of the
//! outside.
//!
//! Promise: each trait's clauses, and of every function over memory its exact answer; of the real edge (`src/system.rt`)
//! only that a fault is counted. Units: sizes in bytes.
//! Start: `specs/Tokens.antt`, then `src/depot.rt`.
#![tactic(auto)]

mod braced_names;
mod byte_strings;
mod cause;
mod depot;
mod escapes;
mod fail_plan;
mod files;
mod hashing;
mod hex_text;
mod ids;
mod images;
mod items;
mod mem_conn;
mod mem_depot;
mod memory;
mod streams;
mod system;
#[cfg(test)]
mod tests;
mod text;
mod tokens;
mod told;
mod var;

pub use braced_names::braces;
pub use byte_strings::is_same;
pub use cause::{Cause, Layer};
pub use depot::{Depot, DepotErr};
pub use escapes::{esc, spellings_differ};
pub use fail_plan::FailPlan;
pub use files::MemFile;
pub use hashing::digest;
pub use hex_text::parse_hex;
pub use ids::{BundleNo, Digest, Guid, KeyNo, OpId, RowNo, TypeNo};
pub use images::{Found, Home, Image, RefTo};
pub use items::Items;
pub use mem_conn::MemConn;
pub use mem_depot::MemDepot;
pub use memory::{Failed, NoMemory};
pub use streams::Sink;
pub use system::{FolderDepot, OutSink};
pub use text::Text;
pub use tokens::{token, token_laws, untoken, untoken_bytes};
pub use told::Told;
pub use var::Var;
