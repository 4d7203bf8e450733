//! Places made ready for an instruction: each star of its place is a hop, which is done here, or one request is sent and the thread waits.
#![tactic(auto)]

mod prepared;
mod preparing;
mod reading;
mod writing;

pub use prepared::Prepared;
pub use preparing::prepare;
