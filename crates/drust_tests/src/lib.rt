//! Tests of the whole way from bytes to text. They stand in a crate of their own, since tests within a crate prove its functions once more.
#![tactic(auto)]

#[cfg(test)]
mod answers;
#[cfg(test)]
mod right;
#[cfg(test)]
mod workers;
