//! The types of what stands in a cluster: the last part of coherent memory. There is no code here: a law is the contract of a
//! function with an empty body.
#![tactic(auto)]

pub mod laws;
