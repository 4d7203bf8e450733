//! Laws of generated programs as sources. There is no code here: a law is the contract of a function with an empty body.
#![tactic(auto)]

mod laws;

pub use laws::programs_are_sources;
