//! What the delivery of a message about threads keeps.

ghost use Rattle.law_counts_sums.specs.Kinds.{arrives, asks_join, finished, joined, starts};
ghost use Rattle.law_counts_sums.specs.Laws.{Leaves, LeavesWithResults, NumbersDiffer, OneState, OneTaskValue, ServersDiffer, SharesCounted};
ghost use Rattle.coherent_memory.specs.Coherent.{OneHome, OneOwner, Users};

/// A `start` is delivered: a new thread stands here.
pub fn start_keeps()
    ensures home { Leaves starts OneHome }
    ensures owner { Leaves starts OneOwner }
    ensures states { Leaves starts OneState }
    ensures users { Leaves starts Users }
    ensures shares { Leaves starts SharesCounted }
    ensures tasks { Leaves starts OneTaskValue }
    ensures threads { Leaves starts NumbersDiffer }
    ensures servers { Leaves starts ServersDiffer }
{}

/// A `join` is delivered: the result is sent, or it is noted who asked.
pub fn join_asked_keeps()
    ensures home { Leaves asks_join OneHome }
    ensures owner { Leaves asks_join OneOwner }
    ensures states { Leaves asks_join OneState }
    ensures users { Leaves asks_join Users }
    ensures shares { Leaves asks_join SharesCounted }
    ensures tasks { Leaves asks_join OneTaskValue }
    ensures threads { Leaves asks_join NumbersDiffer }
    ensures servers { Leaves asks_join ServersDiffer }
{}

/// A `joined` is delivered: the result is the gift of the thread.
pub fn joined_keeps()
    ensures home { Leaves joined OneHome }
    ensures owner { Leaves joined OneOwner }
    ensures states { Leaves joined OneState }
    ensures users { Leaves joined Users }
    ensures shares { Leaves joined SharesCounted }
    ensures tasks { Leaves joined OneTaskValue }
    ensures threads { Leaves joined NumbersDiffer }
    ensures servers { Leaves joined ServersDiffer }
{}

/// A thread that moved arrives.
pub fn arrival_keeps()
    ensures home { Leaves arrives OneHome }
    ensures owner { Leaves arrives OneOwner }
    ensures states { Leaves arrives OneState }
    ensures users { Leaves arrives Users }
    ensures shares { Leaves arrives SharesCounted }
    ensures tasks { Leaves arrives OneTaskValue }
    ensures threads { Leaves arrives NumbersDiffer }
    ensures servers { Leaves arrives ServersDiffer }
{}

/// A `finished` is delivered: the result is kept, sent or dropped, or the parent of a pair goes on.
pub fn finished_keeps()
    ensures home { LeavesWithResults finished OneHome }
    ensures owner { LeavesWithResults finished OneOwner }
    ensures states { LeavesWithResults finished OneState }
    ensures users { LeavesWithResults finished Users }
    ensures shares { LeavesWithResults finished SharesCounted }
    ensures tasks { LeavesWithResults finished OneTaskValue }
    ensures threads { LeavesWithResults finished NumbersDiffer }
    ensures servers { LeavesWithResults finished ServersDiffer }
{}
