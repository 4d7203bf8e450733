//! What became of a plain step.

use fr_base::Fresh;

/// A plain step is done, with the new names that it took; or a request was sent, and the thread waits.
#[derive(Clone, Copy)]
pub enum Committed {
    Done(Fresh),
    Waits,
}
