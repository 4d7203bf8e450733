//! Tests of `server_core`, a server that is driven by hand through whole runs, of `server_index` beside plain lists, and of `controller`'s choices and
//! balances by hand. They stand in a crate of their own, since tests within a crate prove its functions once more.
#![tactic(auto)]

#[cfg(test)]
mod answers;
#[cfg(test)]
mod choices;
#[cfg(test)]
mod driving;
#[cfg(test)]
mod index;
#[cfg(test)]
mod runs;
