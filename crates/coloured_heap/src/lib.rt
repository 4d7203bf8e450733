//! The shared memory as the acts of a journal leave it, under coloured words: which journals are legal, what their acts send, and
//! what a report counts of them (in the manner of DRust, OSDI 2024; the rules are this project's).
//! `legal` counts the messages between different servers exactly where a journal is legal, and else names its first entry that
//! breaks a rule. It keeps tables of what the rules ask of each name; the definitions have a state of lists.
#![tactic(auto)]

mod bag;
mod changes;
mod checking;
mod fault;
mod keys;
mod laws;
mod messages;
mod rules;
mod tables;

pub use checking::legal;
pub use fault::LegalError;
pub use laws::{
    all_legal, first_breaks, journals_compute, kinds_add_up, listed_once, reach_and_drivers,
    rules_refuse, same_states, send_nothing,
};
pub use messages::{message_counts, sending};
