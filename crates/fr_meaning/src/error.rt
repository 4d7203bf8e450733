//! Why a plain step is refused.

use fr_base::Wait;
use thiserror::Error;

/// Why a pool's step was refused; the first cause in this order counts, and want of memory last.
#[derive(Clone, Copy, Debug, PartialEq, Eq, Error)]
pub enum StepError {
    /// No such thread was started.
    #[error("no such thread was started")]
    NoThread,
    /// The thread has ended.
    #[error("the thread has ended")]
    Ended,
    /// The thread stands at a lock, a join or the end of a par that isn't enabled.
    #[error("the thread waits")]
    Waits(Wait),
    /// The new names aren't of the kind that the step takes.
    #[error("the step takes names of another kind")]
    NameKind,
    /// A new name was given before, or two new names are equal.
    #[error("a new name was given before")]
    NameUsed,
    /// The allocator had no memory.
    #[error("no memory")]
    NoMemory,
}
