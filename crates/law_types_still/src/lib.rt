//! What a typed one heap says of its cluster, and that this stays where no plain step is done. There is no code here: a law is the contract of a function that calls other laws at most.
#![tactic(auto)]

pub mod fits;
pub mod heap;
pub mod things;
pub mod threads;

pub use fits::{sound_stand_once, typed_heaps_fit};
pub use heap::{heaps_are_whole, typed_heaps_count};
pub use things::{undone_events_keep_coherence, undone_events_keep_types};
pub use threads::undone_threads_keep_types;
