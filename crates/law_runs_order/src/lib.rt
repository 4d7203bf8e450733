//! Coherence depends on no order in which messages wait. There is no code here: a law is the contract of a function that calls other laws at most.
#![tactic(auto)]

pub mod messages;
pub mod things;
pub mod types;

pub use messages::coherent_in_any_order;
pub use things::sound_with_same_things;
pub use types::{coherent_with_same_things, one_heap_with_same_things};
