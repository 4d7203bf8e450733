//! Copies stay present cells at writes through stars, at ends of mutable references, where objects arrive. There is no code here: a law is the contract of a function that calls other laws at most.
#![tactic(auto)]

pub mod arrivals;
pub mod ends;
pub mod writes;

pub use arrivals::{
    arrivals_keep_copies, borrow_arrivals_keep_copies, end_arrivals_keep_copies,
    read_arrivals_keep_copies, write_arrivals_keep_copies,
};
pub use ends::ends_keep_copies;
pub use writes::{assignments_keep_copies, moves_keep_copies};
// passed on to the crates above
pub use law_words_ends::events_keep_words;
