//! What the images hold that a loading machine keeps: objects by bundle and GUID, read by asset rows.
//!
//! Promise: each call answers exactly what the images hold (`specs/Objects.antt`); only what is copied takes memory.
//! Units: bundles count from 0; a place of the list of images is a bundle's.
//! Left out: which images are kept (`addr_core`). Start: `specs/Objects.antt`, then `src/reading.rt`.
#![tactic(auto)]

mod homes;
mod items;
mod missing;
mod reading;
mod searching;
mod unfolding;

pub use reading::{lent, read_asset};
pub use unfolding::read_all_of_asset;
