//! Entries of locks that take their content and of all steps that follow a place, in the coloured heap, and the words that boxes give.

ghost use Rattle.law_entries_reads.specs.places.Reads.{DoneStepsLegal};
ghost use Rattle.law_entries_reads.specs.locks.Boxes.{BoxesTakeNextWords};
ghost use Rattle.law_entries_reads.specs.locks.Locks.{LocksPlace};
ghost use Rattle.law_entries_reads.specs.locks.Places.{PlacesGoOn, PlacesLegal};

/// From a coherent cluster with few events the entry of a lock that takes the content of its mutex is legal in each coloured heap that the cluster stands for, reaches what it loads, and
/// leads to one that it stands for afterwards, through however many stars its place leads to the mutex: who held the mutex by the gift holds it by the mark in the new slot.
pub fn locks_are_legal()
    ensures { DoneStepsLegal LocksPlace }
{}

/// So whether it is done or asks, the entry of each step is legal, reaches what it loads and leads on that copies what its place leads to, dups or locks the mutex there, or borrows
/// through a star: mutably, or shared from a pointer whose word shows all changes of its object.
pub fn places_are_legal()
    ensures { PlacesLegal }
{}

/// And a legal journal goes on with it.
pub fn journals_go_on()
    ensures { PlacesGoOn }
{}

/// A step that makes an object, from a coherent cluster with few events, gives it the next word of its server's partition, which wasn't issued before; each other object keeps its word.
pub fn boxes_take_next_words()
    ensures { BoxesTakeNextWords }
{}
