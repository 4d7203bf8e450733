//! Plain steps at mutexes and of threads keep a state typed, and so does each step of typed code. There is no code here: a law is the contract of a function that calls other laws at most.
#![tactic(auto)]

pub mod mutexes;
pub mod steps;
pub mod threads;

pub use mutexes::{mutex_acts_are_ready, mutex_acts_keep_types};
pub use steps::{examples_never_stuck, never_stuck, steps_keep_types, typed_terms_step};
pub use threads::{thread_acts_are_ready, thread_acts_keep_types};
