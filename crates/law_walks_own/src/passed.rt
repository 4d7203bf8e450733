//! Boxes that writes have passed have no copies after each event.

ghost use Rattle.law_copies_kept.specs.Below.coherent_memory.Coherent.{passed_not_copied};
ghost use Rattle.law_copies_kept.specs.Below.coherent_memory.Walking.{copied_box, over_passed};
ghost use Rattle.law_walks_others.specs.arrivals.Landed.{EachUnsteppedEventKeeps, OthersWhereItComesKeep};
ghost use Rattle.law_walks_own.specs.Below.law_counts_things.things.Laws.{EachCoherentEventKeeps};
ghost use Rattle.law_walks_own.specs.Below.law_walks_others.pointers.Pointers.{OthersStepsKeep};
ghost use Rattle.law_walks_own.specs.steps.Steps.{OwnStepsKeep, StepsKeep};
ghost use Rattle.law_walks_own.specs.passed.Passed.{NewStayUncopied, PassedStayUncopied};
ghost use Rattle.law_walks_others.specs.still.Deliveries.{EachSuchEventKeeps};

/// Of a box that a thread's write has passed no copy exists after each event that is no step and brings no object.
pub fn unstepped_passed()
    ensures uncopied { EachSuchEventKeeps passed_not_copied }
{}

/// Under the word of a box that a thread's write has passed there is no copy after whatever event, cached or on its way: there was none, and none is asked for, as who waits
/// for one reads a pointer to the object, and nobody reads what another thread has in boxes of its slots. Nor is there one under a word that wasn't issued.
pub fn passed_stays()
    ensures passed { PassedStayUncopied }
    ensures new { NewStayUncopied }
{}

/// Of a box that a thread's write has passed no copy exists after each step, done or not: of what another thread has passed (`others`), of what the thread itself has, where each
/// box that is passed anew gets a word that wasn't issued (`own`), and so of all.
pub fn steps_uncopied()
    ensures others { OthersStepsKeep (λ s x. over_passed s (copied_box s) x) }
    ensures own { OwnStepsKeep (λ s x. over_passed s (copied_box s) x) }
    ensures all { StepsKeep passed_not_copied }
{}

/// Nor does one after each event that is no step. Where an object comes, the pointer at which its thread waits gets a word that wasn't issued before the hop over it is passed, and
/// that pointer is on the way of no other thread (`others`).
pub fn unstepped_uncopied()
    ensures others { OthersWhereItComesKeep (λ s x. over_passed s (copied_box s) x) }
    ensures all { EachUnsteppedEventKeeps passed_not_copied }
{}

/// So each event keeps it, from a coherent cluster with few events: of a box that a write has passed no copy exists.
pub fn each_event_uncopied()
    ensures { EachCoherentEventKeeps passed_not_copied }
{}
