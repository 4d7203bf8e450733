//! Tests of the crates at the bottom: lists and names of `fr_base`, devices of `drust_io`, maps of `rank_map`, words of the command line
//! (`drust_cli`), mutexes and pairs of `fr_shared`. They stand in a crate of their own, since tests within a crate prove its functions once more.
#![tactic(auto)]

#[cfg(test)]
mod answers;
#[cfg(test)]
mod command_lines;
#[cfg(test)]
mod devices;
#[cfg(test)]
mod lists;
#[cfg(test)]
mod maps;
#[cfg(test)]
mod shared;
