//! Whatever does no plain step leaves the one heap as it was.

ghost use Rattle.law_heap_still.specs.undone.Undone.{EachUndoneLeavesHeap};

/// From a coherent cluster in which fewer than 2^31 - 1 events were done, each event of whatever kind that does no plain step leaves the one heap as it was,
/// its messages handed over, where it has a result.
pub fn events_without_a_step()
    ensures { EachUndoneLeavesHeap }
{}
