//! The entries of writes through stars and of ends of references, asking or done, are legal. There is no code here: a law is the contract of a function that calls other laws at most.
#![tactic(auto)]

pub mod asks;
pub mod ends;
pub mod stores;
pub mod walks;

pub use asks::{ends_that_ask_are_legal, steps_that_ask_are_legal, writes_that_ask_are_legal};
pub use ends::{drops_are_legal, journals_go_on, mutable_ends_are_legal};
pub use stores::{variables_are_legal, writes_through_stars_are_legal};
pub use walks::written_places_run;
