//! What a home keeps of its mutexes.

use crate::queues::Queues;
use heap_partition::Owned;
use slab::Slab;

/// What is kept of the mutex with this count: its content where that is in, and how many values of it there are.
#[derive(Clone, Copy, Debug, PartialEq, Eq)]
pub struct Entry {
    pub count: u32,
    pub content: Option<Owned>,
    pub shares: u64,
}

/// The mutexes of one home. The key of the mutex with count `c` lies at place `c - 1`; where the mutex is gone, another one may have
/// its key, which the entry's count tells. Who waits for that mutex stands at place `c - 1` of `waits`.
#[derive(Drop)]
pub struct Store {
    pub home: u8,
    pub keys: Vec<usize>,
    pub entries: Slab<Entry>,
    pub waits: Queues,
}
