//! The contents of mutexes: each stands in exactly one place, after each event.

ghost use Rattle.law_counts_waiting.specs.contents.Contents.{EachEventLeavesOneContent};
ghost use Rattle.law_counts_waiting.specs.Below.coherent_memory.Coherent.{one_content};
ghost use Rattle.law_counts_waiting.specs.Below.law_counts_things.things.Laws.{EachCoherentEventKeeps};

/// The content of each mutex stands in exactly one place after each event of a coherent cluster: a lock that takes it puts the mark of the mutex at its place below its slot,
/// an unlock sends it home, a grant brings it where that mutex is asked for, and it goes with its home alone. The gift of a thread at a lock stays the content of the same
/// mutex, as the place leads where it led.
pub fn contents_keep()
    ensures sums { EachEventLeavesOneContent }
    ensures one_content { EachCoherentEventKeeps one_content }
{}
