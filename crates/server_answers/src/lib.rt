//! Answers to sources that are to be run on servers: from the bytes of a source, or the number of a generated program, to the text of
//! its run in rounds, or why there is none.
#![tactic(auto)]

mod answer;
mod run;

pub use answer::Answer;
pub use drust_run::Ran;
pub use run::{load_answer, run_answer};
