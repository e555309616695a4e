//! What the files of a release show under a key: its catalogue is read, the bundles are opened, their objects are places with
//! numbers, and the walk from the place of each row with the key is unfolded.
//!
//! Promise: `resolve` answers exactly what the files show under a key, or the first cause of a refusal
//! (`specs/Resolving.antt`); in it `open_all` answers what the files of all rows hold, or exactly the first that is missing or
//! can't be read (`specs/Opening.antt`), and `unfold` exactly the unfolding over the graph of the files, or the least GUID that
//! its walk loses (`specs/Graph.antt`, `specs/Lost.antt`).
//! Units: bundles and places count from 0. Places stand in the order of GUIDs, and for each GUID in that of bundles.
//! Left out: the text that is printed of it. Start: `specs/Resolving.antt`, then `src/resolving.rt`.
#![tactic(auto)]

mod error;
mod graph;
mod graphing;
mod items;
mod laws;
mod leading;
mod losing;
mod names;
mod opening;
mod picking;
mod places;
mod placing;
mod resolving;
mod rows;
mod unfolding;

pub use error::{BundleFault, OpenErr, ResolveErr};
pub use graph::PlaceRow;
pub use graphing::graph_of;
pub use items::{Item, items_of};
pub use laws::{answer_is_one, resolve_is_one};
pub use losing::least_lost;
pub use opening::open_all;
pub use picking::picks_of;
pub use places::places_of;
pub use placing::{in_order, number_of};
pub use resolving::resolve;
pub use rows::Resolved;
pub use unfolding::{Graph, Stop, unfold};

#[cfg(test)]
mod tests;
