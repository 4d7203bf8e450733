//! Compiled code as definitions: the steps of instructions, and what stands for a running term. There is no code here: a law is
//! the contract of a function with an empty body.
#![tactic(auto)]

mod laws;

pub use laws::{code_is_typed, codes_compute, runs_alike, same_plain, steps_alike};
