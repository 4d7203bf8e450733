//! The words of objects where a mutable reference ends.

ghost use Rattle.law_words_ends.specs.variables.Ends.{EndsAtHandLeaveWords, FlatEndsKeep};

/// From a coherent cluster a step leaves the words with which a clean mutable reference ends, with its slot, from the hand, or where it is assigned over, that has its
/// first word or was made from the pointer in a variable: no other reference was made from that pointer, and no thread has taken its object from it.
pub fn ends_at_hand_leave_words()
    ensures { EndsAtHandLeaveWords }
{}

/// From a coherent cluster a step keeps the words with which a mutable reference ends that was made from the pointer in a variable, clean or dirty: a dirty one gets
/// the next colour first, or at the last colour a new address, or its object is asked for.
pub fn flat_ends_keep()
    ensures { FlatEndsKeep }
{}
