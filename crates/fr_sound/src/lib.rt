//! No thread of a typed program is ever stuck, and each step keeps the typing. There is no code here: a law is the
//! contract of a function with an empty body.
#![tactic(auto)]

mod laws;

pub use laws::{
    examples_start, never_stuck, never_stuck_together, starts_together, starts_typed,
    threads_apart, threads_start,
};
