//! A plain step that moves or boxes a value keeps a state typed, for running terms and code alike.

ghost use Rattle.law_plain_values.specs.acts.Keeps.{Keeps};
ghost use Rattle.law_plain_values.specs.slots.Example.{BoxIsReady, MoveIsReady};
ghost use Rattle.law_plain_values.specs.slots.SlotActs.{IsBox, IsMove};

/// In a typed state, with whatever threads, mutexes and pairs, an act of this form that a row grants can be done without a new
/// name, and leaves a typed state. A clause an act.
pub fn slot_acts_keep_types()
    ensures take { Keeps IsMove }
    ensures wrap { Keeps IsBox }
{}

/// At main's start 1 may be boxed; once it is bound, the box may be moved. So there are typed states in which the acts of the law above are
/// granted, the second by the laws before it.
pub fn slot_acts_are_ready()
    ensures wrap { BoxIsReady }
    ensures take { MoveIsReady }
{}
