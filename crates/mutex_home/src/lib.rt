//! The mutexes of one server: content, shares and who waits (this project's rules).
#![tactic(auto)]

mod answers;
mod laws;
mod mutexes;
mod parts;
mod queues;
mod store;

pub use answers::{Asked, Back};
pub use laws::mutexes_compute;
pub use mutexes::Mutexes;
