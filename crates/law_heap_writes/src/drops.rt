//! An event that drops a value with whatever goes with it (boxes, last shares of mutexes, tasks) does exactly that plain step on the one heap.

ghost use Rattle.law_heap_writes.specs.drops.Drops.{EndsOfFree, UnlocksOfGone, assigns_variable, discards, drops_slot, ends_thread, unlocks_mutex};
ghost use Rattle.law_words_writes.specs.Below.law_results_reads.Below.coherent_memory.Coherent.{IsSound};
ghost use Rattle.law_heap_steps.specs.turns.Turns.{ArePlainSteps};
ghost use Rattle.law_words_writes.specs.Below.law_results_reads.Below.coherent_types.ClusterTypes.{IsCoherent};

/// From a sound cluster, each discard, each end of a variable and each assignment to one is the plain step of its thread on the one heap, its messages handed over, whatever
/// is dropped: the objects of a chain of boxes go, then the last share of a mutex with its content, or a task with the result of its thread, which is let go where
/// it goes on.
pub fn drop_steps()
    ensures discards { ArePlainSteps IsSound discards }
    ensures drops { ArePlainSteps IsSound drops_slot }
    ensures assigns { ArePlainSteps IsSound assigns_variable }
{}

/// From a sound cluster, so is each unlock of a mutex of which no value is in the state: its content is dropped.
pub fn unlock_steps()
    ensures { UnlocksOfGone }
{}

/// From a sound cluster, so is each end of main, and of a thread that was let go: its result is dropped.
pub fn end_steps()
    ensures { EndsOfFree }
{}

/// From a coherent cluster, so is each unlock, and each end of a thread: a content doesn't own its own mutex, and a result not its own task, so that what is in the state
/// before is in it afterwards, where the content is given back and the result is kept.
pub fn whole_steps()
    ensures unlocks { ArePlainSteps IsCoherent unlocks_mutex }
    ensures ends { ArePlainSteps IsCoherent ends_thread }
{}
