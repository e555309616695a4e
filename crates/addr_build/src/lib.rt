//! The full build of a project folder: bundle files, content state, catalogue and hash are put in this order.
//!
//! Promise: `build` answers the numbers of the release that it put, or exactly the first refusal (`specs/Outcomes.antt`). After
//! Ok each key resolves to what the project shows, and at each moment readers find the old release or the new one
//! (`specs/After.antt`).
//! Units: numbers of bundles and puts count from 0. Left out: what the files hold (addr_images).
//! Start: `specs/After.antt` and `specs/Outcomes.antt`, then `src/builder.rt`.
#![tactic(auto)]

mod builder;
mod bundle_puts;
mod bundles;
mod catalogue_puts;
mod error;
mod index;
mod laws;
mod putting;
mod release;
mod testing;
#[cfg(test)]
mod tests;

pub use builder::build;
pub use bundle_puts::{put_bundle, side_name};
pub use bundles::{PutBundle, PutBundles, put_new};
pub use catalogue_puts::{put_catalogue, put_state, put_state_and_catalogue};
pub use error::{BuildErr, PutErr};
pub use laws::build_laws;
pub use release::Summary;
pub use testing::path_of;
