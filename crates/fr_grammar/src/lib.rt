//! From the tokens of a source to the tree of the one program that they spell.
#![tactic(auto)]

mod fault;
mod grammar_laws;
mod leaves;
mod marks;
mod parser;
mod program;

pub use fault::ParseError;
pub use grammar_laws::{first_refusal, no_program, one_program};
pub use program::parse;
