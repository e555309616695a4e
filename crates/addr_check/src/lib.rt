//! What an update of a release would move, told without a put.
//!
//! Promise: `check` answers exactly the entries that an update would move, in the order of the project, each with its reason, or the
//! first cause of a refusal (`specs/Checking.antt`); files have one answer (`check_is_one`, `specs/Laws.antt`).
//! Left out: `update`. Start: `specs/Checking.antt`, then `src/checking.rt`.
#![tactic(auto)]

mod checking;
mod error;
mod laws;

pub use checking::{Compared, check, compare};
pub use error::CheckErr;
pub use laws::check_is_one;
