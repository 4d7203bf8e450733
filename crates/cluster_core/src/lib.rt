//! The servers of a run side by side, and their events.
#![tactic(auto)]

mod apply;
mod cluster;
mod refused;
mod row;
mod sending;
mod standing;
mod waiting;

pub use cluster::Cluster;
// each event that a cluster does keeps it coherent
pub use law_runs_coherent::events_keep_coherence;
pub use refused::Refused;
