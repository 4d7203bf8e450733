//! Generated programs: for each number and size one text, whose program has a type.
#![tactic(auto)]

mod counting;
mod handing;
mod laws;
mod program;
mod sharing;
#[cfg(test)]
mod tests;
mod writing;

pub use laws::programs_are_typed;
pub use program::generate;
