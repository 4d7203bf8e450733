//! Why an event isn't done.

/// Why an event wasn't done at its server.
#[derive(Clone, Copy, Debug, PartialEq, Eq)]
pub enum Refused {
    /// Its server isn't of the run, or can't do it.
    NotEnabled,
    /// The allocator had no memory.
    NoMemory,
}
