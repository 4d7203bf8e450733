//! No pointer that a thread follows is stale, and small events leave each object its word. There is no code here: a law is the contract of a function that calls other laws at most.
#![tactic(auto)]

pub mod ends;
pub mod moves;
pub mod prepared;
pub mod reads;
pub mod stays;

pub use ends::{
    ended_are_alone, objects_follow, owned_are_alone, writes_are_fresh, written_lie_there,
};
pub use moves::{ends_leave_words, moves_reword};
pub use prepared::{copies_keep_words, requests_keep_words};
pub use reads::reads_find;
pub use stays::{events_leave_words, steps_leave_words};
