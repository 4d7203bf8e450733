//! Drops, assignments and moves are exactly the plain steps on the one heap. There is no code here: a law is the contract of a function that calls other laws at most.
#![tactic(auto)]

pub mod drops;
pub mod writes;

pub use drops::{drop_steps, end_steps, unlock_steps, whole_steps};
pub use writes::{each_event, write_steps};
