//! A cluster stands for the same coloured heaps in whatever order its things stand, so in whatever order its messages wait.

ghost use Rattle.law_runs_right.specs.colours.Laws.{ColouredWithSameThings};

/// A cluster stands for each coloured heap for which a sound one with the same things does.
pub fn coloured_with_same_things()
    ensures { ColouredWithSameThings }
{}
