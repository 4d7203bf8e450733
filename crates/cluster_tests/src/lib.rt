//! Tests of `cluster_core`: whole runs over several servers, each driven by a text of events that was worked out by hand. They stand in a crate of
//! their own, since tests within a crate prove its functions once more.
#![tactic(auto)]

#[cfg(test)]
mod events;
#[cfg(test)]
mod run;
#[cfg(test)]
mod runs;
