//! An event without a plain step leaves the one heap as it was. There is no code here: a law is the contract of a function that calls other laws at most.
#![tactic(auto)]

pub mod events;
pub mod undone;

pub use events::{alike_stand_for_one, asking_leaves_heap, events_leave_heap, requests_leave_heap};
pub use undone::events_without_a_step;
