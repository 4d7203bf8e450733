//! Each event keeps the types of the one heap, sorts, holders, what is outside it, and a server's parts. There is no code here: a law is the contract of a function that calls other laws at most.
#![tactic(auto)]

pub mod heap;
pub mod holders;
pub mod outside;
pub mod parts;
pub mod sorts;

pub use heap::{events_keep_names, events_keep_state};
pub use holders::events_keep_holders;
pub use outside::steps_fit_outside;
pub use parts::parts_keep;
pub use sorts::{events_keep_sorts, events_keep_views};
