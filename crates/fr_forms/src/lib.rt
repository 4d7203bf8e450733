//! The forms of a checked program: its terms with slots for names, one for each node of its tree, all forms of the grammar.
#![tactic(auto)]

mod forming;
mod forms;

pub use forming::forms_of;
pub use forms::{Body, Captured, Form};
