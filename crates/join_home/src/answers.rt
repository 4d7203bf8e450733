//! What the home of a thread does with its result.

use fr_base::ThreadNo;
use heap_partition::Owned;

/// Where the result of a thread that has ended goes.
#[derive(Clone, Copy, Debug, PartialEq, Eq)]
pub enum EndedAs {
    /// To the thread that asked, at that server.
    Answer(u8, ThreadNo, Owned),
    /// It was the second of a pair, whose parent is told.
    Both(ThreadNo),
    /// Nobody will have it: the thread was let go.
    LetGo(Owned),
    /// It is kept, since nobody has asked yet, or the other of a pair goes on.
    Kept,
}
