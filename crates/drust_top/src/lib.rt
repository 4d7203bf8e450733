//! The top call: from the words of a command line and the bytes of an input to the text that is written and the status.
#![tactic(auto)]

mod laws;
mod outcome;
mod top;

pub use laws::one_answer;
pub use outcome::Outcome;
pub use top::drust;
