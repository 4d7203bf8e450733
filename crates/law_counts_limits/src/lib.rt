//! How much an event takes and sends at most, and how far it raises counts. There is no code here: a law is the contract of a function that calls other laws at most.
#![tactic(auto)]

pub mod bounds;
pub mod limits;
pub mod sendings;

pub use bounds::{counts_keep, walks_keep};
pub use limits::{counts_are_small, events_send_few};
pub use sendings::events_send_their_acts;
