//! Runs in rounds of typed programs are right. There is no code here: a law is the contract of a function that calls other laws at most.
#![tactic(auto)]

pub mod colours;
pub mod order;
pub mod right;

pub use colours::coloured_with_same_things;
pub use order::{left_in_any_order, right_in_any_order};
pub use right::runs_in_rounds_are_right;
// passed on to the crates above
pub use law_entries_events::{events_are_right, events_keep_coherence, programs_run_right};
pub use law_length_runs::{
    runs_in_rounds_are_driven, runs_in_rounds_end, runs_of_programs_are_short,
};
