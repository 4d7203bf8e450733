//! What a run leaves.

use cluster_core::Cluster;
use fr_base::Ending;
use journal::Journal;

/// What a run leaves: its journal, the cluster that the journal leads to, and how the run ended.
#[derive(Drop)]
pub struct Ran {
    pub journal: Journal,
    pub cluster: Cluster,
    pub ending: Ending,
}
