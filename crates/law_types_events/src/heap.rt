//! Each event keeps the types of the one heap.

ghost use Rattle.law_types_events.specs.heap.States.{EventsKeepNames, EventsKeepState};

/// From a coherent cluster in which few events were done, each event that has a result, its messages handed over, leaves a cluster whose one heap is typed
/// by the same table, with what follows from that of what is counted (`law_types_still::heap`): where the entry has a `done`, as the plain step of its thread leaves it, and else as it was.
pub fn events_keep_state()
    ensures { EventsKeepState }
{}

/// By that typing each mutex whose name was given and each thread that was started have the type that they had before. Where the entry has a `done` mutable references
/// have their exact types, from where the act of the step takes them; where it has none all types are as they were.
pub fn events_keep_names()
    ensures { EventsKeepNames }
{}
