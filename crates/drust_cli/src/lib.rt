//! The words of a command line: which command they ask for, and with which options. `clap` takes the options apart and prints
//! nothing.
#![tactic(auto)]

mod asked;
mod parser;
mod reading;
mod words;

pub use asked::{Asked, Command, WordsError};
pub use reading::read_words;
