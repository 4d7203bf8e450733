//! What a step leaves of the walk of its own thread: what it has passed lies at its server, what it has followed is at hand, and it waits in turn.

ghost use Rattle.law_walks_others.specs.Below.coherent_memory.Coherent.{passed_lie_here, place_followed, waits_in_turn};
ghost use Rattle.law_walks_others.specs.Below.coherent_memory.Walking.{away, lost_place, out_of_turn, over_passed};
ghost use Rattle.law_walks_own.specs.steps.Steps.{OwnStepsKeep, StepsKeep};

/// After the step of a thread, done or not, from a coherent cluster with few events: what the thread has passed for its write lies at its server, what it has followed it has at
/// hand, and it waits in turn.
pub fn own_walks_stand()
    ensures passed_lie_here { OwnStepsKeep (λ s x. over_passed s (away s) x) }
    ensures place_followed { OwnStepsKeep lost_place }
    ensures waits_in_turn { OwnStepsKeep (λ s x. out_of_turn s x x.thread.phase) }
{}

/// So the sentences hold of all threads after such a step.
pub fn steps_keep_walks()
    ensures passed_lie_here { StepsKeep passed_lie_here }
    ensures place_followed { StepsKeep place_followed }
    ensures waits_in_turn { StepsKeep waits_in_turn }
{}
