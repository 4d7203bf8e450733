//! The words of objects where a step that writes through stars ends in a request, and where the object comes. There is no code here: a law is the contract of a function that calls other laws at most.
#![tactic(auto)]

pub mod arrivals;
pub mod awaited;
pub mod writes;

pub use arrivals::{arrivals_are_awaited, arrivals_reword};
pub use awaited::{
    borrow_arrivals_keep_words, end_arrivals_keep_words, read_arrivals_keep_words,
    write_arrivals_keep_words,
};
pub use writes::writes_keep_words;
