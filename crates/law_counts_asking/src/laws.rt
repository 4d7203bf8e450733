//! What each event keeps of threads that wait, one clause for each sentence.

ghost use Rattle.law_counts_asking.specs.Standing.{EachEventAsksForWhatIsThere, EachUndoneEventKeeps};
ghost use Rattle.law_results_reads.specs.Below.coherent_memory.Coherent.{branches_give_unit, carry_what_is_asked, gifts_fit, gifts_got, pairs_go_on, parents_end, phases_stand};
ghost use Rattle.law_counts_things.specs.things.Laws.{EachCoherentEventKeeps, EachEventKeeps};

/// What is told of pairs: the two threads that one waits for differ, and not both are noted as over, and going up from branches to their parents comes to an end, in a
/// sound cluster; and the message that tells the end of a branch carries unit, in a coherent one.
pub fn pairs_keep()
    ensures pairs_go_on { EachEventKeeps pairs_go_on }
    ensures branches_give_unit { EachCoherentEventKeeps branches_give_unit }
    ensures parents_end { EachEventKeeps parents_end }
{}

/// What is told of gifts, in a coherent cluster: one stands in phase `Got` alone, as its thread asks for nothing before it takes it.
pub fn gifts_keep()
    ensures { EachCoherentEventKeeps gifts_got }
{}

/// What is told of answers, in a sound cluster: what will answer a thread carries, or is kept for, what its phase names.
pub fn answers_keep()
    ensures { EachEventKeeps carry_what_is_asked }
{}

/// Where threads stand that wait for what a home gives or have it, in a coherent cluster: at the lock, the dup or the join that asked for it. The mutex of a lock or a dup is
/// the one to which its place led before the event, and the thread that is joined is the operand.
pub fn standing_keeps()
    ensures { EachEventAsksForWhatIsThere }
{}

/// So threads that wait for a home, or have what it gave, stand right after each event that does no plain step: the one heap is the same, and so is the mutex at each of
/// these places.
pub fn undone_keeps()
    ensures phases_stand { EachUndoneEventKeeps phases_stand }
    ensures gifts_fit { EachUndoneEventKeeps gifts_fit }
{}
