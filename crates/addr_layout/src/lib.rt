//! Layouts of placements: what stands in each bundle, where its references lead, and which bundles it needs.
//!
//! Promise: `layout` gives exactly the members, the homes and the needs of each bundle (`specs/Members.antt`,
//! `specs/Needs.antt`, `specs/Layout.antt`); following references through bundles comes to exactly what the project reaches
//! (`specs/Agreement.antt`); members and dependencies are counted without a layout (`specs/Counts.antt`).
//! Units: assets and bundles are named by their places in the project's and the placement's lists.
//! Start: `specs/Members.antt`, then `src/laying.rt`.
#![tactic(auto)]

mod counting;
mod direct;
mod graph;
mod guids;
mod homes;
mod laws;
mod laying;
mod links;
mod model;
mod placing;
#[cfg(test)]
mod tests;

pub use addr_walks::closed;
pub use counting::{deps_count, members_count};
pub use laws::{
    counts_are_one, dependencies_begin_once, direct_closes, kept_closes, kept_walk_agrees,
    layout_is_one, placement_is_shared, references_are_led, walk_agrees,
};
pub use laying::layout;
pub use model::{LayBundle, Layout, RefHome};
