//! From the tokens of a source to the tree of its program, and from the tree back to its canonical text, which is read as the same program. The parser stands in
//! `fr_grammar`, so that what only reads programs need not wait for the printer.
#![tactic(auto)]

mod print_laws;
mod printer;

pub use fr_grammar::{ParseError, first_refusal, no_program, one_program, parse};
pub use print_laws::prints_itself;
pub use printer::print;
