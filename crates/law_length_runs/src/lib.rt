//! A driven run is short by its steps and asks, and runs in rounds are driven. There is no code here: a law is the contract of a function that calls other laws at most.
#![tactic(auto)]

pub mod asked;
pub mod driven;
pub mod short;
pub mod worth;

pub use asked::{
    driven_runs_of_code_are_short, driven_runs_of_programs_are_short, few_rest, few_start, runs_end,
};
pub use driven::{chosen_runs_are_driven, runs_in_rounds_are_driven};
pub use short::{asks_left, runs_of_code_are_short, runs_of_programs_are_short};
pub use worth::{driven_runs_are_short, events_spend, runs_are_short};
// passed on to the crates above
pub use law_runs_rounds::runs_in_rounds_end;
pub use law_runs_whole::events_keep_coherence;
