//! What an event leaves of the walks of all threads but the one that steps. There is no code here: a law is the contract of a function that calls other laws at most.
#![tactic(auto)]

pub mod arrivals;
pub mod pointers;
pub mod still;

pub use arrivals::{all_land, others_land};
pub use pointers::{deliveries_keep, followed_stays, others_stay, pointers_stay};
pub use still::others_come;
