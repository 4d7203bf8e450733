//! A cluster is sound in whatever order its things stand, so in whatever order its messages wait.

ghost use Rattle.law_runs_order.specs.things.Laws.{SoundWithSameThings};

/// A cluster is sound where one with the same things is: no sentence depends on the order in which things stand, nor on the list of messages in which one waits.
pub fn sound_with_same_things()
    ensures { SoundWithSameThings }
{}
