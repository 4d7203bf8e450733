//! Counters over a fixed number of kinds: each count is exact, and so is their sum. No call takes memory.
#![tactic(auto)]

mod kinds;
mod tally;
#[cfg(test)]
mod tests;

pub use tally::Tally;
