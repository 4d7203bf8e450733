//! Tests of `server_core`: each call of a server, asked of the servers of whole runs whose answers were worked out by hand, and chains of boxes that are dropped.
//! They stand in a crate of their own, since tests within a crate prove its functions once more.
#![tactic(auto)]

#[cfg(test)]
mod calls;
#[cfg(test)]
mod chains;
#[cfg(test)]
mod hand;
#[cfg(test)]
mod rows;
#[cfg(test)]
mod run;
#[cfg(test)]
mod told;
