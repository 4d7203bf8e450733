//! Typed stores of Featherweight Rust: values at keys and objects in a heap, exact types of them, and the laws that each step
//! of a thread keeps a typed store typed. There is no code here: a law is the contract of a function with an empty body.
#![tactic(auto)]

mod laws;

pub use laws::{list_law, make_law, rows_law, set_law, swap_law, thread_law, tidy_law, unbox_law};
