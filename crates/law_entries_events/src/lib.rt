//! The entry of each event is legal, so each cluster is what its journal leaves. There is no code here: a law is the contract of a function that calls other laws at most.
#![tactic(auto)]

pub mod boxes;
pub mod events;
pub mod objects;

pub use boxes::{borrows_are_legal, boxes_are_legal};
pub use events::{entries_lead, events_are_right, programs_are_left_by_journals};
pub use objects::{objects_come_legally, objects_go_legally};
// passed on to the crates above
pub use law_runs_whole::{events_keep_coherence, programs_are_left, programs_run_right};
