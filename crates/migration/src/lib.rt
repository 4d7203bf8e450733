//! A thread as a parcel, and a parcel as a thread: the same thread, which takes no use of a cached copy along (this project's rules).
#![tactic(auto)]

mod packing;

pub use packing::{pack_thread, unpack};
