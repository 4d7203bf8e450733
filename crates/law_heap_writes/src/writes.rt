//! A step that writes through stars is exactly that plain step on the one heap.

ghost use Rattle.law_heap_writes.specs.writes.Every.{EachIsStepOrStill, each_instruction};
ghost use Rattle.law_heap_writes.specs.writes.Writes.{assigns_place, moves_place};
ghost use Rattle.law_heap_writes.specs.Below.law_heap_steps.turns.Turns.{ArePlainSteps};
ghost use Rattle.law_heap_writes.specs.Below.coherent_types.ClusterTypes.{IsCoherent};

/// From a coherent cluster, each move out of what a place leads to, and each assignment to it, through however many stars, is the plain step of its thread on the one
/// heap, with the entry's labels, its messages handed over: what stood there is on top, or is dropped with whatever goes with it. A step that ends with a request does
/// no plain step.
pub fn write_steps()
    ensures moves { ArePlainSteps IsCoherent moves_place }
    ensures assigns { ArePlainSteps IsCoherent assigns_place }
{}

/// From a coherent cluster in which few events were done, each step of whatever instruction that is done is that plain step; and so each event that has a result is exactly the
/// plain step of its entry's thread where the entry has a `done`, and leaves the one heap as it was where it has none.
pub fn each_event()
    ensures instructions { ArePlainSteps IsCoherent each_instruction }
    ensures events { EachIsStepOrStill }
{}
