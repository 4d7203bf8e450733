//! What the steps keep that make something with a name: they need that the name is new.

ghost use Rattle.law_counts_sums.specs.Kinds.{step_box, step_par, step_spawn};
ghost use Rattle.law_counts_sums.specs.Laws.{LeavesWithNames, LeavesWithThreads, NumbersDiffer, OneState, OneTaskValue, ServersDiffer, SharesCounted};
ghost use Rattle.coherent_memory.specs.Coherent.{OneHome, OneOwner, Users};

/// A new object, and its box.
pub fn box_keeps()
    ensures home { LeavesWithNames step_box OneHome }
    ensures owner { LeavesWithNames step_box OneOwner }
    ensures states { LeavesWithNames step_box OneState }
    ensures users { LeavesWithNames step_box Users }
    ensures shares { LeavesWithNames step_box SharesCounted }
    ensures tasks { LeavesWithNames step_box OneTaskValue }
    ensures threads { LeavesWithNames step_box NumbersDiffer }
    ensures servers { LeavesWithNames step_box ServersDiffer }
{}

/// A new thread with what it captures, and its task.
pub fn spawn_keeps()
    ensures home { LeavesWithThreads step_spawn OneHome }
    ensures owner { LeavesWithThreads step_spawn OneOwner }
    ensures states { LeavesWithThreads step_spawn OneState }
    ensures users { LeavesWithThreads step_spawn Users }
    ensures shares { LeavesWithThreads step_spawn SharesCounted }
    ensures tasks { LeavesWithThreads step_spawn OneTaskValue }
    ensures threads { LeavesWithThreads step_spawn NumbersDiffer }
    ensures servers { LeavesWithThreads step_spawn ServersDiffer }
{}

/// Two new threads with what they capture; their parent waits.
pub fn par_keeps()
    ensures home { LeavesWithThreads step_par OneHome }
    ensures owner { LeavesWithThreads step_par OneOwner }
    ensures states { LeavesWithThreads step_par OneState }
    ensures users { LeavesWithThreads step_par Users }
    ensures shares { LeavesWithThreads step_par SharesCounted }
    ensures tasks { LeavesWithThreads step_par OneTaskValue }
    ensures threads { LeavesWithThreads step_par NumbersDiffer }
    ensures servers { LeavesWithThreads step_par ServersDiffer }
{}
