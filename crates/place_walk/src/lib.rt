//! One hop of a thread along a place: the pointer, the server and the words that are cached there determine it (in the manner of
//! DRust, OSDI 2024: a reader copies an object, and a writer has it come; the rules are this project's).
#![tactic(auto)]

mod hop;
mod walk;

pub use hop::Hop;
pub use walk::{read_hop, write_hop};
