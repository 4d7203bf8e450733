//! Each event keeps where threads stand that wait, and one place for the content of each mutex. There is no code here: a law is the contract of a function that calls other laws at most.
#![tactic(auto)]

pub mod contents;
pub mod waits;

pub use contents::contents_keep;
pub use waits::{places_keep, takers_keep, waits_keep};
