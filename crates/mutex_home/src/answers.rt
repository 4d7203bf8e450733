//! What the home of a mutex answers.

use fr_base::ThreadNo;
use heap_partition::Owned;

/// What came of asking for a mutex's content.
#[derive(Clone, Copy, Debug, PartialEq, Eq)]
pub enum Asked {
    /// The content is out; whoever asked waits in the mutex's queue.
    Queued,
    /// The content, which is out now.
    Granted(Owned),
}

/// What came of giving a mutex's content back.
#[derive(Clone, Copy, Debug, PartialEq, Eq)]
pub enum Back {
    /// The content goes on to the first that asked: its server and thread.
    Next(u8, ThreadNo, Owned),
    /// No share is left, so the mutex is gone, and this is its content.
    Ended(Owned),
    /// The content is in.
    Kept,
}
