//! Tests of `fr_compile`: the codes of small programs. They stand in a crate of their own, since tests within a crate prove its functions once more.
#![tactic(auto)]

#[cfg(test)]
mod codes;
#[cfg(test)]
mod rows;
