//! Tests of the crates of a server's memory, from words and references to partitions, copies, hops, mutexes, threads and messages. They stand in a crate of their
//! own, since tests within a crate prove its functions once more.
#![tactic(auto)]

#[cfg(test)]
mod answers;
#[cfg(test)]
mod cells;
#[cfg(test)]
mod colours;
#[cfg(test)]
mod copies;
#[cfg(test)]
mod drawn_copies;
#[cfg(test)]
mod hops;
#[cfg(test)]
mod messages;
#[cfg(test)]
mod mutexes;
#[cfg(test)]
mod owners;
#[cfg(test)]
mod packing;
#[cfg(test)]
mod references;
#[cfg(test)]
mod tasks;
#[cfg(test)]
mod threads;
#[cfg(test)]
mod values;
#[cfg(test)]
mod words;
