//! What a plain step takes, what a thread waits for, and how a run ends.

use crate::list::List;
use crate::name::{MutexNo, ThreadNo};

/// The new names that a plain step takes.
#[derive(Clone, Copy, Debug, PartialEq, Eq)]
pub enum Fresh {
    None,
    Thread(ThreadNo),
    Threads(ThreadNo, ThreadNo),
    Mutex(MutexNo),
}

/// What a thread waits for that can't step.
#[derive(Clone, Copy, Debug, PartialEq, Eq)]
pub enum Wait {
    Lock(MutexNo),
    Join(ThreadNo),
    Par(ThreadNo, ThreadNo),
}

/// The threads that can't step, each with what it waits for.
pub type Waits = List<(ThreadNo, Wait)>;

/// How a state stands: all threads have ended, none can step, or some thread can.
#[derive(Clone, Copy, Debug, PartialEq, Eq)]
pub enum Ending3 {
    Finished,
    Deadlocked,
    Going,
}

/// How a run ended: all threads have ended, none can step, or it was not run to an end.
#[derive(Clone, Copy, Debug, PartialEq, Eq)]
pub enum Ending {
    Finished,
    Deadlocked,
    Unfinished,
}
