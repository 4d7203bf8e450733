//! The events that are no steps: what a message does at the server that it goes to, copies that go, and threads that leave.
#![tactic(auto)]

mod answers;
mod beginning;
mod delivering;
mod joining;
mod moving;
mod objects;
mod pulling;
mod sharing;

pub use beginning::{deliver, evict_at, migrate_at};
