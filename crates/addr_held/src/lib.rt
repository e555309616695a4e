//! The release that an update starts from: its catalogue, the content state that this names, and the state's bundles, opened
//! where all is as the state says.
//!
//! Promise: `open_release` answers what a folder's files hold, or exactly the first thing that is wrong with them
//! (`specs/Opening.antt`); `held_is_one` says that there is no other answer (`specs/Laws.antt`).
//! Units: sizes in bytes. Left out: the project, and what would move. Start: `specs/Opening.antt`, then `src/opening.rt`.
#![tactic(auto)]

mod bundles;
mod error;
mod judging;
mod laws;
mod naming;
mod opening;
mod release;
mod rows;
mod states;

pub use error::HeldErr;
pub use laws::held_is_one;
pub use opening::open_release;
pub use release::Release;
pub use rows::rows_of_state;

#[cfg(test)]
mod tests;
