//! What is let go.

use crate::name::{MutexNo, ThreadNo};

/// A value that is dropped somewhere and counted at its home: a share of a mutex, or the task of a thread.
#[derive(Clone, Copy, Debug, PartialEq, Eq)]
pub enum Released {
    Mutex(MutexNo),
    Task(ThreadNo),
}
