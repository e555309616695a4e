//! What Huwendrith promises, on one page: each public call is a sentence, its clause says it exactly, and its body cites the layer
//! that proves it. Nothing runs.
//!
//! Start: `src/machine.rt` (what leaves memory and when), `src/threads.rt` (many threads), `src/releases.rt` (what players get),
//! `src/projects.rt`, `src/formats.rt`.
//! Left out: what single calls answer, which stands at each call (`docs/PROVED.md`).
#![tactic(auto)]

mod formats;
mod machine;
mod projects;
mod releases;
mod threads;

pub use formats::{
    asset_tables_are_read_back, bundle_files_are_read_back, catalogues_have_one_meaning,
    content_states_have_one_meaning, plain_rows_have_one_meaning,
};
pub use machine::{
    counts_are_of_unreleased_operations, idle_bundles_have_no_image, journals_are_legal_histories,
    readings_have_one_answer, ready_operations_have_their_images, replies_keep_histories_legal,
};
pub use projects::{
    entries_stand_in_one_bundle, folders_stand_for_one_project, placements_are_one,
    projects_show_one_list,
};
pub use releases::{
    builds_show_the_project, builds_switch_at_the_catalogue, edits_builds_and_updates_show,
    files_have_one_answer, releases_are_one, updates_show_the_project,
    updates_switch_at_the_catalogue,
};
pub use threads::threads_share_one_history;
