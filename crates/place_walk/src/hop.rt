//! One hop of a thread along a place.

use global_addr::Word;

/// How a pointer leads on: to a slot, to a cell that lies here, or to a cached copy, and else what is needed first. (The idea, that
/// a reader copies an object and a writer has it come, is that of DRust, OSDI 2024; the hops are this project's.)
#[derive(Clone, Copy, Debug, PartialEq, Eq)]
pub enum Hop {
    /// To that slot of the thread.
    Slot(u32),
    /// To be read where it lies, which is here.
    Direct(Word),
    /// To the copy that is cached under that word.
    Hit(Word),
    /// The object is neither here nor cached: a copy has to be asked for.
    NeedCopy(Word),
    /// The object isn't here and is to be changed: it has to come.
    NeedMove(Word),
    /// The pointer has to get the next colour.
    NeedTint(Word),
    /// To be changed where it lies, which is here; the mutable reference that leads there keeps its word.
    AtCell(Word),
}
