//! Plain steps of one thread's values keep a state typed: lets, reads, borrows, boxes, drops. There is no code here: a law is the contract of a function that calls other laws at most.
#![tactic(auto)]

pub mod acts;
pub mod drops;
pub mod slots;

pub use acts::{acts_are_ready, acts_keep_types, instructions_have_rows};
pub use drops::{dropping_acts_keep_types, drops_are_ready, drops_keep_types};
pub use slots::{slot_acts_are_ready, slot_acts_keep_types};
