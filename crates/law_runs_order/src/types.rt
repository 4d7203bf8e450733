//! A cluster is coherent, and stands for the same one heap, in whatever order its things stand, so in whatever order its messages wait.

ghost use Rattle.law_runs_order.specs.types.Laws.{CoherentWithSameThings, OneHeapWithSameThings};

/// A cluster stands for the same one heap as a sound one with the same things.
pub fn one_heap_with_same_things()
    ensures { OneHeapWithSameThings }
{}

/// A cluster is coherent where one with the same things is.
pub fn coherent_with_same_things()
    ensures { CoherentWithSameThings }
{}
