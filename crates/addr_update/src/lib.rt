//! Updates of a shipped release: which entries stay where they are and why the others move, what an update leaves, and that each
//! key then resolves to what the project shows.
//!
//! Promise: `update_shows` and `updates_show` are laws over `specs/Moved.antt`, `specs/Placement.antt` and `specs/After.antt`;
//! they do nothing when they run. `led_away` and `doubtful` answer what an update asks of places by number.
//! Units: numbers of bundles, entries and places count from 0.
//! Left out: making the tables of places, and the calls that read and put a folder.
//! Start: `specs/Moved.antt`, then `specs/Laws.antt`.
#![tactic(auto)]

mod doubting;
mod laws;
mod leading;
mod model;

pub use doubting::doubtful;
pub use laws::{
    clean_stays, clear_ways_stay, entries_split, fresh_keeps, moved_placement_is_shared,
    one_updated_placement, update_along, update_rows, update_shows, updates_show,
};
pub use leading::led_away;
pub use model::{KeptBundle, Move, NotIntact, Why};
