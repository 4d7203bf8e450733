//! Tests of the front: environments of `fr_types` that are built slot by slot, and sources that `fr_parse` reads and prints, tokens and trees of `fr_syntax`. They
//! stand in a crate of their own, since tests within a crate prove its functions once more.
#![tactic(auto)]

#[cfg(test)]
mod environments;
#[cfg(test)]
mod nodes;
#[cfg(test)]
mod refusals;
#[cfg(test)]
mod slots;
#[cfg(test)]
mod texts;
#[cfg(test)]
mod tokens;
