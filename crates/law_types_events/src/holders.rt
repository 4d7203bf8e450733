//! Each event keeps the holders of mutable references.

ghost use Rattle.law_types_events.specs.holders.Holders.{EventsKeepHolders};

/// From a coherent cluster in which few events were done, each event that has a result, its messages handed over, leaves a cluster in which the holder of each mutable
/// reference to an object is the place of its exact type with one star less, where that is a place of its own thread: by whatever typing of the one heap in which mutable
/// references have the exact types that they had, from where the act of the step takes them.
pub fn events_keep_holders()
    ensures { EventsKeepHolders }
{}
