//! Copies stay present cells where references go, places are read and borrowed, objects come and go. There is no code here: a law is the contract of a function that calls other laws at most.
#![tactic(auto)]

pub mod copies;
pub mod hidden;
pub mod objects;
pub mod references;

pub use copies::{carried_values_leave_copies, copies_come_from_copies, copies_stay};
pub use hidden::copies_come_under_words;
pub use objects::{
    boxes_keep_copies, delivered_drops_keep_copies, delivered_moves_keep_copies,
    mutable_borrows_keep_copies, shared_borrows_keep_copies, starts_keep_copies,
};
pub use references::{reads_keep_copies, references_keep_copies};
