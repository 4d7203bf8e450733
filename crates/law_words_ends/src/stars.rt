//! The words of objects where a mutable reference ends whose holder stands behind stars.

ghost use Rattle.law_words_ends.specs.stars.Returned.{EndsKeepWords};
ghost use Rattle.law_words_ends.specs.stars.Each.{DiscardsKeepWords, DropsKeepWords, AssignmentsKeepWords, MovesKeepWords};

/// From a coherent cluster a step keeps the words with which a mutable reference ends, with its slot, from the hand, or where it is assigned over: whether it is clean
/// or dirty, whether its holder stands in a variable or behind stars, in a slot or in a cell, and whether the step is done or something is asked for.
pub fn ends_keep_words()
    ensures { EndsKeepWords }
{}

/// So each discard keeps the words, whatever goes.
pub fn discards_keep_words()
    ensures { DiscardsKeepWords }
{}

/// And each drop of the newest slot.
pub fn drops_keep_words()
    ensures { DropsKeepWords }
{}

/// And each assignment, to a variable or through stars.
pub fn assignments_keep_words()
    ensures { AssignmentsKeepWords }
{}

/// And each move, out of a variable or through stars.
pub fn moves_keep_words()
    ensures { MovesKeepWords }
{}
