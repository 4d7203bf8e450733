//! The entries of deliveries, and of steps that follow no star, are legal. There is no code here: a law is the contract of a function that calls other laws at most.
#![tactic(auto)]

pub mod deliveries;
pub mod still;
pub mod variables;

pub use deliveries::{entries_are_legal, legal_entries_continue};
pub use still::{joins_that_ask_are_legal, plain_steps_are_legal, variable_borrows_are_legal};
pub use variables::{
    clean_ends_are_legal, gifts_are_legal, plain_drops_are_legal, starts_are_legal,
    task_journals_go_on, task_steps_are_legal, unlocks_are_legal,
};
