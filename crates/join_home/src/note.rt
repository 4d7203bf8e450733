//! What is noted of a thread.

use fr_base::ThreadNo;
use heap_partition::Owned;

/// What is noted of a thread: it goes on and somebody has its task, it goes on and its task was dropped, it has ended with this
/// result, a thread of that server has asked for its result, or it is a branch of that parent's pair beside that other thread and
/// has ended or not.
#[derive(Clone, Copy, Debug, PartialEq, Eq)]
pub enum Note {
    Going,
    Dropped,
    Ended(Owned),
    Asked(u8, ThreadNo),
    Branch(ThreadNo, ThreadNo, bool),
}
