//! Fetching: where a bundle's bytes come from, and where they are poured while they arrive.
//!
//! Promise: the rules that each fetcher keeps (`specs/Gives.antt`), and of the fetcher in memory its exact answers; of a real
//! folder (`src/folder_fetch.rt`) only the rules, since nothing can be told of what it holds. Units: bytes.
//! Start: `specs/Gives.antt`, then `src/fetch.rt`.
#![tactic(auto)]

mod chains;
mod collecting;
mod fetch;
mod folder_fetch;
mod gate;
mod mem_fetch;
mod pour;
#[cfg(test)]
mod tests;

pub use chains::chains_join;
pub use collecting::Collected;
pub use fetch::{Fetch, Fetched, Poured};
pub use folder_fetch::FolderFetch;
pub use gate::{Gate, OpenGate};
pub use mem_fetch::MemFetch;
pub use pour::Pour;
