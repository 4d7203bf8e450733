//! The new names that a step takes.

/// The kind of new names that a thread's next step takes: none, one thread, two threads or a mutex.
#[derive(Clone, Copy, Debug, PartialEq, Eq)]
pub enum Need {
    Nothing,
    Thread,
    Threads,
    Mutex,
}
