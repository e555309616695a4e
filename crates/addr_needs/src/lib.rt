//! Which bundles each bundle of an update's placement needs: a new one what its members refer to, a kept one the others that its
//! file names.
//!
//! Promise: `old_numbers` answers for each kept bundle its number in the state (`specs/Numbers.antt`), `needs_of` the row of each
//! bundle's needs (`specs/Needed.antt`, over `NeedsAfter` of addr_update).
//! Units: numbers of bundles count from 0. Left out: closing the rows, and what becomes of them in a catalogue.
//! Start: `specs/Needed.antt`, then `src/needs.rt`.
#![tactic(auto)]

mod names;
mod naming;
mod needs;
mod numbers;

pub use needs::needs_of;
pub use numbers::old_numbers;
