//! One server's memory: words to cells, and new words. No word is issued twice, whatever the colour limit.
#![tactic(auto)]

mod laws;
mod partition;

pub use laws::{fresh_law, runs_law, states_law};
pub use partition::Partition;
