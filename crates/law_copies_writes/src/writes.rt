//! Copies of cells at writes through stars.

ghost use Rattle.law_copies_writes.specs.writes.Cover.{AssignmentsKeepCopies, MovesKeepCopies};

/// From a coherent cluster copies are right after an assignment through stars, done or ending in a request for an object: each is the present cell of the object whose word it has, and
/// each that is asked for is one of a live object that isn't changed through a reference. What is written on the way is under a word that wasn't issued, marked as changed, or under a
/// word of which no copy is, where an earlier event passed its box; and nobody asks for a copy of it.
pub fn assignments_keep_copies()
    ensures { AssignmentsKeepCopies }
{}

/// And so they are after a move out of a place with stars.
pub fn moves_keep_copies()
    ensures { MovesKeepCopies }
{}
