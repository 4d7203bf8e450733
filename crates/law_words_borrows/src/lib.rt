//! The words of objects where a place is borrowed. There is no code here: a law is the contract of a function with an empty body.
#![tactic(auto)]

mod laws;

pub use laws::{mutable_borrows_keep_words, shared_borrows_keep_words};
