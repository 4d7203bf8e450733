//! What other threads have passed, followed, taken and wait for where an object comes.

ghost use Rattle.law_counts_waiting.specs.Below.coherent_memory.Coherent.{passed_lie_here, place_followed, waits_in_turn};
ghost use Rattle.law_counts_waiting.specs.Below.coherent_memory.Requests.{old_word};
ghost use Rattle.law_counts_waiting.specs.Below.coherent_memory.Walking.{away, lost_place, out_of_turn, over_passed};
ghost use Rattle.law_walks_others.specs.arrivals.Landed.{EachUnsteppedEventKeeps, OthersWhereItComesKeep};

/// Where an object comes to a thread, each other one has at hand what it has followed, waits in turn, has taken an object under another word than the pointer has that its
/// place follows last, and what it has passed for a write lies at its server.
pub fn others_land()
    ensures place_followed { OthersWhereItComesKeep lost_place }
    ensures waits_in_turn { OthersWhereItComesKeep (λ s x. out_of_turn s x x.thread.phase) }
    ensures taken_is_new { OthersWhereItComesKeep (λ s x. old_word s x x.thread.phase) }
    ensures passed_lie_here { OthersWhereItComesKeep (λ s x. over_passed s (away s) x) }
{}

/// So after each event that is no step each thread has at hand what it has followed, what it has passed for a write lies at its server, and who waits for an object or a copy
/// waits in turn.
pub fn all_land()
    ensures passed_lie_here { EachUnsteppedEventKeeps passed_lie_here }
    ensures place_followed { EachUnsteppedEventKeeps place_followed }
    ensures waits_in_turn { EachUnsteppedEventKeeps waits_in_turn }
{}
