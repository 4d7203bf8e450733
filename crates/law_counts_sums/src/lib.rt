//! Every event keeps twelve parts of coherent memory that are sums over all things.
#![tactic(auto)]

pub mod deliveries;
pub mod every;
pub mod exchanges;
pub mod instructions;
pub mod joining;
pub mod leaving;
pub mod making;
pub mod outcomes;
pub mod parts;
pub mod sharing;
