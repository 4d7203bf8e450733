//! The plain machine as definitions: running terms, their moves, what an act does to the one heap, and whole runs.
#![tactic(auto)]

mod laws;
mod value;

pub use laws::{refused_steps, runs_compute, same_plain, shared_run, threads_run};
pub use value::Value;
