//! The plain machine under other names, and all runs of a program. There is no code here: a law is the contract of a function with an empty body.
#![tactic(auto)]

mod laws;

pub use laws::{all_runs_end_so, names_dont_matter};
