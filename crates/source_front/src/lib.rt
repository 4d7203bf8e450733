//! The front of a source: from its bytes to its program, checked, or why it has none and what is written then.
#![tactic(auto)]

mod count;
mod refused;
mod source;

pub use count::add_count;
pub use refused::Refused;
pub use source::checked_source;
