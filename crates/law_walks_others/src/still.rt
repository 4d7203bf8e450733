//! What an event that is no step leaves of what threads have passed, followed and wait for.

ghost use Rattle.law_walks_others.specs.Below.coherent_memory.Coherent.{passed_lie_here, place_followed, waits_in_turn};
ghost use Rattle.law_walks_others.specs.still.Deliveries.{EachSuchEventKeeps};

/// After each event in which no thread steps and no object comes, what a thread has passed for a write lies at its server, each thread has at hand what it has followed, and
/// who waits for an object or a copy waits in turn.
pub fn others_come()
    ensures passed_lie_here { EachSuchEventKeeps passed_lie_here }
    ensures place_followed { EachSuchEventKeeps place_followed }
    ensures waits_in_turn { EachSuchEventKeeps waits_in_turn }
{}
