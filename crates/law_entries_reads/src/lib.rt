//! The entries of reads, borrows and locks, asking or done, and of served copies are legal. There is no code here: a law is the contract of a function that calls other laws at most.
#![tactic(auto)]

pub mod asks;
pub mod locks;
pub mod places;
pub mod served;

pub use asks::{asking_entries_continue, borrows_that_ask_are_legal, reads_that_ask_are_legal};
pub use locks::{boxes_take_next_words, journals_go_on, locks_are_legal, places_are_legal};
pub use places::{
    borrows_are_legal, legal_journals_go_on, reads_are_legal, walks_reach_what_they_load,
};
pub use served::{legal_entry_continues, served_entries_are_legal};
