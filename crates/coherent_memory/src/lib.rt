//! What it is for a cluster of servers to be coherent, and the one heap that it stands for.
#![tactic(auto)]

pub mod laws;
