//! What each event keeps of waiting threads: what they ask for, what they get, and who waits for whom. There is no code here: a law is the contract of a function with an empty body.
#![tactic(auto)]

mod laws;

pub use laws::{answers_keep, gifts_keep, pairs_keep, standing_keeps, undone_keeps};
