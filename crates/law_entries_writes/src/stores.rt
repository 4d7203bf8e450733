//! Entries of moves and assignments, in the coloured heap.

ghost use Rattle.law_entries_reads.specs.places.Reads.{DoneStepsLegal};
ghost use Rattle.law_entries_reads.specs.Below.law_entries_variables.variables.Steps.{StepsLegal};
ghost use Rattle.law_entries_writes.specs.stores.Through.{WritesThere};
ghost use Rattle.law_entries_writes.specs.stores.Variables.{WritesVariable};

/// From a coherent cluster with few events the entry of a step is legal that moves out of a variable, whatever stands there, or assigns to one: what stood there is let go, or
/// ends where it is a mutable reference that is clean and has its first word or was made from the pointer in a variable.
pub fn variables_are_legal()
    ensures { StepsLegal WritesVariable }
{}

/// So is the entry of a step that is done of a thread that moves out of the end of a place with stars, or assigns to it: on its way boxes and references get words, objects lie at its
/// server, and each load has the object's value; the object at the end gets its new value, and what stood there is let go, or its object condemned.
pub fn writes_through_stars_are_legal()
    ensures { DoneStepsLegal WritesThere }
{}
