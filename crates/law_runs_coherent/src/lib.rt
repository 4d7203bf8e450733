//! The start of a run is coherent, and each event keeps coherence, all laws of events together. There is no code here: a law is the contract of a function that calls other laws at most.
#![tactic(auto)]

pub mod events;
pub mod starts;

pub use events::{
    ends_stay, events_keep_coherence, events_keep_copies, events_keep_types, events_stand_once,
    owners_end,
};
pub use starts::starts_are_coherent;
