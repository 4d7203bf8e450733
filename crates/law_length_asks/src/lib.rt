//! How many hops a thread has ahead of it, and how often it asks yet before a step is done. There is no code here: a law is the contract of a function that calls other laws at most.
#![tactic(auto)]

pub mod ahead;
pub mod answers;
pub mod hops;
pub mod left;

pub use ahead::{copies_lead_on, hops_ahead_are_few, hops_ahead_stay, own_reads_lead_on};
pub use answers::events_leave_asks;
pub use hops::{hops_beside_stay, own_writes_lead_on};
pub use left::{asks_are_few, asks_take_one, others_leave_asks};
