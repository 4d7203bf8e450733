//! A run under way.

use cluster_core::Cluster;
use controller::Choice;
use journal::Journal;

// A run under way: its cluster, each server's generator, and the journal that led there; and how many events the servers did in the last
// round beside the busiest one's, by which alone it is chosen how many workers the next round has.
#[derive(Drop)]
pub(crate) struct Drive {
    pub(crate) cluster: Cluster,
    pub(crate) choices: Vec<Choice>,
    pub(crate) journal: Journal,
    pub(crate) beside: u64,
}
