//! Each event keeps what a thing tells by itself, and the names that stand in it. There is no code here: a law is the contract of a function that calls other laws at most.
#![tactic(auto)]

pub mod names;
pub mod things;

pub use names::{askers_keep, names_keep, values_keep_to_code};
pub use things::{messages_keep, servers_keep, threads_keep, threads_keep_to_code};
