//! Steps over variables and places, at mutexes and of threads are exactly the plain steps on the one heap. There is no code here: a law is the contract of a function that calls other laws at most.
#![tactic(auto)]

pub mod mutexes;
pub mod threads;
pub mod turns;

pub use mutexes::{answer_steps, box_steps, new_mutex_steps, share_steps, unlock_steps};
pub use threads::{end_steps, join_steps, pair_end_steps, par_steps, spawn_steps};
pub use turns::{drop_steps, own_steps, rows_compute, star_steps};
