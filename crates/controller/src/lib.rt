//! Which event a server does next, and which thread is moved between servers. No call takes memory.
#![tactic(auto)]

mod events;
mod loads;

pub use events::{Choice, next};
pub use loads::{Load, balance, busiest};
