//! Threads whose code is still to come.

/// A new thread whose code is still to come.
#[derive(Clone, Copy)]
pub struct Waiting {
    /// The place of the instruction that starts the thread, which doesn't say yet where the thread's code stands.
    pub start: u64,
    /// Whether the thread is the second one of a pair.
    pub is_second: bool,
    /// The number of its body's form.
    pub body: u32,
    /// How many slots the thread drops at its end.
    pub drops: u32,
}
