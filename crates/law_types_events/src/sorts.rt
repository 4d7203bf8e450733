//! Each event keeps the sorts of values, and what parents see of views.

ghost use Rattle.law_types_events.specs.sorts.Sorts.{EventsKeepSorts, EventsKeepViews};

/// From a coherent cluster in which few events were done, each event that has a result, its messages handed over, leaves a cluster in which each slot and temporary value
/// of a thread that isn't over has the sort that the same table gives at its instruction: it is a shared reference or a mutable one, `Gone` where it moved away, and a
/// view's is a shared reference to an object; and left operands are integers.
pub fn events_keep_sorts()
    ensures { EventsKeepSorts }
{}

/// And in which each view of a thread leads to an object to which its parent, which waits for it at its par, has a shared reference or a view in a slot.
pub fn events_keep_views()
    ensures { EventsKeepViews }
{}
