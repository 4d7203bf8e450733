//! How many steps a program has, how long its orders are, and how many turns are enough. There is no code here: a law is the contract of a function that calls other laws at most.
#![tactic(auto)]

pub mod orders;
pub mod sizes;
pub mod turns;

pub use orders::{orders_are_short, programs_have_blocks, trees_have_their_nodes};
pub use sizes::programs_do_few_steps;
pub use turns::{journals_are_short, runs_in_rounds_come_to_an_end, steps_and_threads_are_few};
// passed on to the crates above
pub use law_runs_right::runs_in_rounds_are_right;
