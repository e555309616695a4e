//! The texts of commands that show what is in files and projects (docs/formats/printed-texts.md).
//!
//! Promise: each call gives exactly the text that `specs/` says. Left out: the line of a refusal, which the program prints.
//! Start: `specs/InspectText.antt` and `specs/PlanText.antt`, then `src/inspect.rt` and `src/plan.rt`.
#![tactic(auto)]

mod inspect;
mod plan;

pub use inspect::inspect_text;
pub use plan::plan_text;
