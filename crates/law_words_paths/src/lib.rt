//! Where places lead, who else points there, and how words go on where one of them changes. There is no code here: a law is the contract of a function that calls other laws at most.
#![tactic(auto)]

pub mod paths;
pub mod words;

pub use paths::{one_may_write, places_lead_alike, those_above_are_stale, written_are_fresh};
pub use words::{small_steps_reword, soles_stay, words_go_on, words_stay};
