//! Tests of journals: which are legal, what their acts send, and the texts that are written of them. They stand in a crate of their own, since tests within a crate
//! prove its functions once more.
#![tactic(auto)]

#[cfg(test)]
mod answers;
#[cfg(test)]
mod legality;
#[cfg(test)]
mod orders;
#[cfg(test)]
mod rows;
#[cfg(test)]
mod runs;
#[cfg(test)]
mod texts;
#[cfg(test)]
mod words;
