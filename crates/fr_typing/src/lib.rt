//! Types, places and the typing of terms, as definitions, and their laws.
#![tactic(auto)]

mod laws;
mod reason;

pub use laws::{exactly_one, examples_compute, one_outcome};
pub use reason::Reason;
