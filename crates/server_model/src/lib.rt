//! Servers, clusters and events: what a server's state is, and what each event does to it. Definitions, and the types that
//! name an event.
#![tactic(auto)]

mod event;
pub mod laws;

pub use event::{Event, What};
