//! The words of objects where a value goes from place to place, an object is made or goes, a reference goes. There is no code here: a law is the contract of a function that calls other laws at most.
#![tactic(auto)]

pub mod carried;
pub mod freed;
pub mod made;
pub mod references;

pub use carried::{
    locks_keep_words, made_objects_have_words, moves_leave_words, owned_values_go,
    steps_carry_values, values_are_carried,
};
pub use freed::objects_go;
pub use made::{boxes_have_words, words_differ};
pub use references::{
    holders_pass_no_unnamed_slot, pointers_may_go, references_go, starts_leave_words,
};
