//! What a thread waits for.

use fr_base::{MutexNo, ThreadNo};
use global_addr::Word;

/// Whether a thread can take a step, and what it waits for.
#[derive(Clone, Copy, Debug, PartialEq, Eq)]
pub enum Phase {
    /// It can step, and no hop of its next step is made ready.
    Ready,
    /// It waits for the cell of that word.
    WaitCell(Word),
    /// What it waited for is there.
    Got,
    /// As `Got`, with the new word of an object that was pulled for a mutable borrow.
    Taken(Word),
    WaitLock(MutexNo),
    WaitDup(MutexNo),
    WaitJoin(ThreadNo),
    /// It waits until both branches have ended.
    WaitPar(ThreadNo, ThreadNo),
    /// As `Got`, after both branches have ended.
    GotPar(ThreadNo, ThreadNo),
    /// It has ended.
    Over,
}
