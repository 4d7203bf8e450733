//! Events of a cluster.

use fr_base::ThreadNo;
use global_addr::Word;

/// What a server does in one atomic action (this project's rule).
#[derive(Clone, Copy, Debug, PartialEq, Eq)]
pub enum What {
    /// A thread goes on with its plain step as far as it can here.
    Step(ThreadNo),
    /// The waiting message at that place is delivered, from 0.
    Deliver(usize),
    /// The cached copy under that word goes.
    Evict(Word),
    /// A thread leaves for that server.
    Migrate(ThreadNo, u8),
}

/// One atomic action at one server.
#[derive(Clone, Copy, Debug, PartialEq, Eq)]
pub struct Event {
    pub server: u8,
    pub what: What,
}
