//! The messages that servers send each other. Each goes from one server to one server, and only its kind is counted.
#![tactic(auto)]

mod message;

pub use message::Message;
