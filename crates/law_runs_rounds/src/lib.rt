//! Runs in rounds are runs of events, whatever room their lists have. There is no code here: a law is the contract of a function that calls other laws at most.
#![tactic(auto)]

pub mod room;
pub mod rounds;

pub use room::runs_know_no_room;
pub use rounds::{rounds_go_on, rounds_grow, runs_in_rounds_end, starts_are_under_way};
