//! The lines of an order, and their list.

use fr_base::{Fresh, List, ThreadNo};

/// The line that starts at byte `place`: it spells `steps` steps of that thread, each with the new names `fresh`.
/// A line that is read has one to 1,000,000,000 steps, and just one where `fresh` isn't `None`.
#[derive(Clone, Copy, Debug, PartialEq, Eq)]
pub struct OrderLine {
    pub place: usize,
    pub thread: ThreadNo,
    pub steps: u64,
    pub fresh: Fresh,
}

/// An order: its lines, one for each line of the text. It spells the steps of all its lines in order, and never holds them
/// one by one.
pub type Order = List<OrderLine>;
