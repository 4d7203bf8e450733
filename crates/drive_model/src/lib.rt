//! How a run is driven: which event a server does next, rounds of all servers, and when threads are moved to even out their loads.
//! Definitions, and laws of them.
#![tactic(auto)]

pub mod laws;
