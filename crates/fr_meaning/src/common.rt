//! What all threads have in common.

use fr_shared::{Heap, Mutexes, Pairs};

/// The one heap, the mutexes, and the pairs of threads for which their parents wait.
#[derive(Drop)]
pub struct Common {
    pub heap: Heap,
    pub mutexes: Mutexes,
    pub pairs: Pairs,
}
