//! Entries of boxes and of borrows, whatever their pointer, in the coloured heap.

ghost use Rattle.law_entries_writes.specs.Below.law_entries_reads.places.Reads.{DoneStepsLegal};
ghost use Rattle.law_entries_writes.specs.Below.law_entries_variables.variables.Steps.{StepsLegal};
ghost use Rattle.law_entries_events.specs.boxes.Borrows.{Borrows, SharesThrough};
ghost use Rattle.law_entries_events.specs.boxes.Boxes.{MakesBox};

/// From a coherent cluster with few events the entry of a step that makes an object is legal in each coloured heap that the cluster stands for, and leads to one that it stands for
/// afterwards: the object comes under the next word of its server, which none had, and each other object is as it was.
pub fn boxes_are_legal()
    ensures { StepsLegal MakesBox }
{}

/// So is the entry of a shared borrow through stars that is done (`done`), whatever its pointer is: a reference through which its object was written gets another word first, the next
/// colour or at the last one a new address. So the entry of each borrow is legal, done or not (`each`).
pub fn borrows_are_legal()
    ensures done { DoneStepsLegal SharesThrough }
    ensures each { StepsLegal Borrows }
{}
