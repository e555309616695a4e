//! Texts with names in square brackets: each name stands for the expanded value of the variable of that name.
//!
//! Promise: `expand` answers exactly the expanded text, or exactly why there is none (`specs/Expansion.antt`). Values that
//! double each other cost no more than others: expansion goes in rounds, and of a long text only the length is kept.
//! Units: lengths in bytes. Start: `specs/Expansion.antt`, then `src/expansion.rt`.
#![tactic(auto)]

mod error;
mod expanding;
mod expansion;
mod extent;
mod replies;
#[cfg(test)]
mod tests;

pub use error::ExpandErr;
pub use expanding::{expand, expansion_is_meant};
pub use extent::Extent;
pub use replies::{Replies, first_bad, first_circular, is_bad, replies_of};
