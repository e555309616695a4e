//! What an update of a release decides: which entries of fixed groups stay in which bundle of the state, and why the others move.
//!
//! Promise: `fates_of` answers for each entry exactly whether it is kept, and where, or the first reason to move
//! (`specs/Fates.antt`, over `IsKept` and `IsReason` of addr_update); `moves_of` tells the moves, `split_of` what is kept and
//! what moves (`IsSplit` of addr_update).
//! Units: numbers of bundles, entries, groups and places count from 0. Left out: reading a folder, and putting a release.
//! Start: `specs/Fates.antt`, then `src/deciding.rt`.
#![tactic(auto)]

mod anew;
mod assets;
mod bad;
mod before;
mod changing;
mod deciding;
mod digits;
mod entries;
mod fate;
mod fates;
mod firsts;
mod knowing;
mod known;
mod leasts;
mod looks;
mod olds;
mod splitting;
mod stays;
mod telling;

pub use before::moved_before;
pub use deciding::fates_of;
pub use fate::Fate;
pub use olds::old_bundles;
pub use splitting::{Split, split_of};
pub use stays::stays_of;
pub use telling::moves_of;
