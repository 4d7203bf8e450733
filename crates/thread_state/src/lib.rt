//! What a thread is at its server: its values, where it stands in its code, and what it waits for; and the same packed to
//! go to another server.
#![tactic(auto)]

mod boxed;
mod parcel;
mod phase;
mod thread;
mod value;

pub use boxed::BoxedThread;
pub use parcel::Parcel;
pub use phase::Phase;
pub use thread::Thread;
pub use value::Value;
