//! Lines, words and numbers of a text: exact readers, each of which finds its part where it is there, and only there.
//!
//! Promise: each reader's clause says both sides, so that readers can be chained by `?` (`specs/Fields.antt`, `specs/Lines.antt`).
//! Units: places in bytes. No call takes memory. Start: `specs/Fields.antt`, then `src/fields.rt`.
#![tactic(auto)]

mod fields;
mod lines;

pub use addr_base::is_same;
pub use fields::{
    after_word, cut_at, long_after, long_number, number, number_after, number_then, short_after,
    short_number, two_numbers_after,
};
pub use lines::next_line;
