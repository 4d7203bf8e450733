//! What stands in a cluster keeps its types where no plain step is done.

ghost use Rattle.law_types_still.specs.things.Agrees.{UndoneKeepsCoherence, UndoneKeepsTypes};

/// From a coherent cluster in which fewer than 2^31 - 1 events were done, each event of whatever kind that does no plain step leads to a cluster that has types, its
/// messages handed over, where it has a result: every cell, content of a mutex and result of a thread agrees with the type of its name, wherever it stands, as do gifts
/// and what threads have, and its one heap is typed.
pub fn undone_events_keep_types()
    ensures { UndoneKeepsTypes }
{}

/// So that cluster is coherent where it is sound.
pub fn undone_events_keep_coherence()
    ensures { UndoneKeepsCoherence }
{}
