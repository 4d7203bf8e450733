//! The borrow checker: a tree is checked, or the answer is its first fault, exactly as typing has it.
#![tactic(auto)]

mod captures;
mod check_error;
mod checked;
mod checker;
mod finding;
mod heap_place;
mod nodes;
mod rules;
mod spare;
mod usage;
mod written;

pub use check_error::CheckError;
pub use checked::{Checked, check};
pub use usage::Usage;
