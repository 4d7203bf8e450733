//! Small programs, each with the end of all its runs on servers. There is no code here: a law is the contract of a function that calls other laws.
#![tactic(auto)]

mod laws;

pub use laws::{explored_follows, rows_are_typed, rows_follow};
