//! Entries of discards and of drops of slots, in the coloured heap, where they are done.

ghost use Rattle.law_entries_reads.specs.places.Reads.{DoneStepsLegal};
ghost use Rattle.law_entries_writes.specs.ends.Going.{DropsContinue, EndsMutable, LetsGo};

/// From a coherent cluster with few events the entry of a step with which a mutable reference ends, from the hand, with the newest slot, or as its variable is assigned, is legal where it is
/// done, in each coloured heap that the cluster stands for, and leads to one that it stands for afterwards: whether it is clean or dirty, and whether the pointer that it was made from stands
/// in a variable or behind stars, in a slot or in a cell. A dirty one gives its object the next colour, or another address at the last one; each box on the way to the pointer gets the next
/// word of its object; and the word that the pointer gets changes no value, as values are told without words.
pub fn mutable_ends_are_legal()
    ensures { DoneStepsLegal EndsMutable }
{}

/// So is the entry of each discard and of each drop of the newest slot that is done, whatever goes.
pub fn drops_are_legal()
    ensures { DoneStepsLegal LetsGo }
{}

/// So a legal journal goes on with it.
pub fn journals_go_on()
    ensures { DropsContinue }
{}
