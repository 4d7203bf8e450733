//! The words of objects where a step that writes through stars is done. There is no code here: a law is the contract of a function with an empty body.
#![tactic(auto)]

mod laws;

pub use laws::assignments_keep_words;
