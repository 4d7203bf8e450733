//! What threads have taken, and what they have passed, after each event.

ghost use Rattle.law_words_ends.specs.Below.coherent_memory.Coherent.{taken_is_new, taken_stands};
ghost use Rattle.law_words_ends.specs.Below.law_counts_things.things.Laws.{EachCoherentEventKeeps};

/// What a thread has taken for a mutable borrow is the word of the object to which its place leads, which lies there, and the pointer that the place follows last has another one,
/// after each event from a coherent cluster. Only an object that comes is taken, under a word that wasn't issued; while a thread has it, its place leads where it led, its
/// pointers keep their words or get a new one, and nobody asks for the object.
pub fn taken_stays()
    ensures stands { EachCoherentEventKeeps taken_stands }
    ensures is_new { EachCoherentEventKeeps taken_is_new }
{}
