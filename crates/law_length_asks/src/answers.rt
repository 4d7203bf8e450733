//! What answers make of the asks that a thread has left.

ghost use Rattle.law_length_asks.specs.answers.Events.{EventsLeaveAsks};

/// No event but a step of the thread itself gives a thread more asks, from a coherent cluster to a coherent one: whatever step of another thread, eviction, move of a thread or delivery, also that
/// of an object, a copy, a lock, a share or a result to the thread itself.
pub fn events_leave_asks()
    ensures { EventsLeaveAsks }
{}
