//! The compiler: from a checked program to instructions that do its steps.
#![tactic(auto)]

mod compiler;
mod emitting;
mod threads;
mod waiting;

pub use compiler::compile;
