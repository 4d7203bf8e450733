//! That an enabled event of a coherent cluster has a result. There is no code here: a law is the contract of a function with an empty body.
#![tactic(auto)]

mod laws;

pub use laws::{steps_of_variables, steps_that_borrow, steps_that_read};
