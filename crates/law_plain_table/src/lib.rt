//! The code of a program, and the table of compiled code, from the typing of its program. There is no code here: a law is the contract of a function with an
//! empty body.
#![tactic(auto)]

mod laws;

pub use laws::{
    codes_of_examples, examples_have_tables, programs_have_codes, typed_code_has_table,
};
