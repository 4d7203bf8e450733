//! How far an event raises the counts of a cluster.

ghost use Rattle.law_counts_things.specs.Below.coherent_memory.Coherent.{counts_bounded, passed_within};
ghost use Rattle.law_counts_things.specs.things.Laws.{EachCoherentEventKeeps, EachEventKeeps};

/// In a coherent cluster no next address, and no number of retired addresses, of users of a copy or of shares of a mutex is above sixteen times the number of
/// events: an event raises each by at most one a star of the place that its instruction follows, of which there are at most eight, and by two beside.
pub fn counts_keep()
    ensures counts_bounded { EachCoherentEventKeeps counts_bounded }
{}

/// In a sound cluster a write never passes more hops than its place has: it passes them one by one, and an object comes for one that isn't passed.
pub fn walks_keep()
    ensures passed_within { EachEventKeeps passed_within }
{}
