//! Reading up to the first fault: the words in which every format says what its bytes are read as, over any type of faults.
//!
//! Promise: none of its own; it is definitions and laws alone (`specs/Steps.antt`, `specs/Gives.antt`), and nothing runs.
//! Left out: what any format is.
//! Start: `specs/Steps.antt`.
#![tactic(auto)]
