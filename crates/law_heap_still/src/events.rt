//! An event that does no plain step leaves the one heap as it was.

ghost use Rattle.law_counts_sums.specs.Kinds.{arrives, asks_dup, asks_join, asks_lock, dupped, evicts, fetch, fetched, finished, granted, joined, migrates, moved, moving, released, starts, unlocked};
ghost use Rattle.law_heap_still.specs.events.Laws.{AlikeStandForOne, JoinsThatAsk, LeaveHeap, RequestsLeaveHeap};

/// Two clusters of one code, the first of them sound, stand for the same one heap where all that counts of their things is the same: no word, copy, use,
/// address, message, pin or server counts, a gift counts as the content or result that it is, a
/// branch that has ended beside its result, and no content of a mutex or result of a thread that nothing names.
pub fn alike_stand_for_one()
    ensures { AlikeStandForOne }
{}

/// From a sound cluster with few events, where they have a result, an eviction, a migration, and the delivery of a new thread, of a parcel, of a copy, of an
/// object, of a mutex's content or a share of it, of a result, of what asks for one of these, of a content that comes back, of a share or a task that was
/// dropped, and of the end of a thread, leave the one heap as it was, their messages handed over.
pub fn events_leave_heap()
    ensures evictions { LeaveHeap evicts }
    ensures migrations { LeaveHeap migrates }
    ensures starts { LeaveHeap starts }
    ensures parcels { LeaveHeap arrives }
    ensures fetches { LeaveHeap fetch }
    ensures copies { LeaveHeap fetched }
    ensures moves { LeaveHeap moving }
    ensures objects { LeaveHeap moved }
    ensures locks { LeaveHeap asks_lock }
    ensures dups { LeaveHeap asks_dup }
    ensures joins { LeaveHeap asks_join }
    ensures contents { LeaveHeap granted }
    ensures shares { LeaveHeap dupped }
    ensures results { LeaveHeap joined }
    ensures unlocks { LeaveHeap unlocked }
    ensures releases { LeaveHeap released }
    ensures ends { LeaveHeap finished }
{}

/// A join that asks for its result leaves the one heap as it was.
pub fn asking_leaves_heap()
    ensures { JoinsThatAsk }
{}

/// From a sound cluster with few events, a step that does no plain step, as it ends in a request for a copy or an object, for a mutex's content or a share of
/// it, or for a result, leaves the one heap as it was, its messages handed over.
pub fn requests_leave_heap()
    ensures { RequestsLeaveHeap }
{}
