//! Where a server's work can be held up.

/// Is told when a server's work arrives at the start of a quantum or of a live turn. It may take its time, and changes
/// nothing of the server.
pub trait Gate {
    /// The work of `server` arrives.
    fn arrive(&self, server: u8);
}

/// The gate that lets all pass at once.
#[derive(Clone, Copy, Debug, PartialEq, Eq)]
pub struct NoGate;

impl Gate for NoGate {
    fn arrive(&self, _server: u8) {}
}
