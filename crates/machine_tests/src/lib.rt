//! Tests of the plain machine on sources, step by step. They stand in a crate of their own, since tests within a crate prove its functions once
//! more.
#![tactic(auto)]

#[cfg(test)]
mod machine;
