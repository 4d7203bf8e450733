//! Enabled steps that write or end a reference have a result, and so has each enabled event. There is no code here: a law is the contract of a function that calls other laws at most.
#![tactic(auto)]

pub mod enabled;
pub mod writes;

pub use enabled::{enabled_events_have_results, pars_have_results, spawns_have_results};
pub use writes::{moved_arrive, steps_that_end, steps_that_write};
