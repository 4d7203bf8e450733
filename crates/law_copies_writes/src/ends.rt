//! Copies of cells where mutable references end.

ghost use Rattle.law_copies_writes.specs.ends.Close.{EndsKeepCopies};

/// From a coherent cluster copies are right after a step with which a mutable reference ends, with its slot, from the hand, or where it is assigned over: whether it is clean or dirty,
/// whether its holder stands in a variable or behind stars, and whether the step is done or asks for an object. The reference is cleaned first, so its object has a word then that wasn't
/// issued; what is written on the way to its holder is covered as at a write through stars; and with the reference no mark goes and none comes.
pub fn ends_keep_copies()
    ensures { EndsKeepCopies }
{}
