//! What events leave of the hops ahead of a thread.

ghost use Rattle.law_length_asks.specs.hops.Beside.{EventsBesideLeaveAhead};
ghost use Rattle.law_length_asks.specs.hops.Writes.{OwnWritesLeaveNoMore};

/// No event but a step of the thread itself, and an object that comes to it, changes how many hops are ahead of a thread that goes on, as it stands: whatever step of another thread, eviction,
/// move of a thread or delivery, from a coherent cluster with few events.
pub fn hops_beside_stay()
    ensures { EventsBesideLeaveAhead }
{}

/// Nor does the step of a thread that writes through a star and asks for an object on its way leave more hops ahead of it: it passes no fewer than before.
pub fn own_writes_lead_on()
    ensures { OwnWritesLeaveNoMore }
{}
