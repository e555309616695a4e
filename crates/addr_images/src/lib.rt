//! What a build writes, made without a depot: bundle files with their rows, the rows of entries, the content state and the
//! catalogue; and the limits that are measured before any of it is made.
//!
//! Promise: `file_of` gives the file of a bundle (`IsFileOf` of addr_release), and the other calls the one text or the rows
//! that belong to a release; `plan_within` and `layout_within` answer the first limit that a project passes, with the whole
//! count (`specs/Limits.antt`).
//! Units: sizes in bytes; numbers of bundles, assets and entries count from 0. Left out: where files are put.
//! Start: `specs/Limits.antt`, `specs/Sizes.antt`, then `src/files.rt`.
#![tactic(auto)]

mod catalogues;
mod deps;
mod entries;
mod files;
mod fixed;
mod guids;
mod images;
mod keys;
mod limits;
mod marks;
mod outside;
mod owners;
mod rows;
mod sizes;
mod states;
#[cfg(test)]
mod tests;

pub use catalogues::{catalogue_of, catalogue_over};
pub use entries::entries_over;
pub use files::file_of;
pub use limits::{LimitErr, layout_within, members_within, plan_within, update_within};
pub use rows::{row_of, side_of};
pub use sizes::bundle_bytes;
pub use states::state_of;
