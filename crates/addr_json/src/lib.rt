//! Members of JSON documents, both ways: what a member of an object stands for, and the values that are written.
//!
//! Promise: each reader answers what its definition in `specs/Members.antt` gives, and None where the member is absent,
//! of another kind or outside its values; each writer makes the value of `specs/Trees.antt`.
//! Left out: which members a document has, and which of its faults comes first.
//! Start: `specs/Members.antt`, then `src/members.rt`.
#![tactic(auto)]

mod digits;
mod members;
mod tree;
mod trees;

pub use digits::{as_digest, as_guid};
pub use members::{array_at, as_texts, member, size_at, text_at};
pub use tree::read_tree;
pub use trees::{digest_tree, guid_tree, put_text, texts_tree};
