//! The words of objects where a mutable reference ends, and so after each event. There is no code here: a law is the contract of a function that calls other laws at most.
#![tactic(auto)]

pub mod arrivals;
pub mod stars;
pub mod variables;

pub use arrivals::{arrivals_keep_words, events_keep_words, words_rise};
pub use stars::{
    assignments_keep_words, discards_keep_words, drops_keep_words, ends_keep_words,
    moves_keep_words,
};
pub use variables::{ends_at_hand_leave_words, flat_ends_keep};
