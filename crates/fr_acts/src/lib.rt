//! What a plain step does, in code: its act on a thread's slots (the newest last) and on what threads share, with its
//! labels. An act says nothing of the term of which it is a step.
#![tactic(auto)]

mod acts;
mod laws;
mod mutexes;
mod spot;

pub use acts::{
    arith, assign, borrow, discard, drop_result, drop_slot, drop_value, finish, keep_result,
    make_box, note, print, read,
};
pub use laws::mutex_acts_go;
pub use mutexes::{can_dup, drop_share, dup, lock, lock_wait, mutex_behind, new_mutex, unlock};
