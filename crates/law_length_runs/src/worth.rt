//! How long a run gets.

ghost use Rattle.law_length_runs.specs.worth.Driving.{DrivenMoveFew, DrivenRunsAreShort};
ghost use Rattle.law_length_runs.specs.worth.Spending.{EventsSpend, RunsAreShort, StartsWithLittle};

/// Each event takes at least one from what the cluster is worth, the threads that it starts and its own cost aside: five are given with each thread, a step of
/// a thread costs at most four, done or not, a thread that moves again without a plain step two, and no other event anything.
pub fn events_spend()
    ensures { EventsSpend }
{}

/// A run of a program does at most four events for each step of a thread, done or not, five for each thread, and two more for each time that a thread moves
/// again without a plain step.
pub fn runs_are_short()
    ensures start { StartsWithLittle }
    ensures runs { RunsAreShort }
{}

/// A driven journal moves a thread again only after a plain step of that thread: it has at most as many moves as plain steps, and as threads that rest at its end. So
/// a driven run has at most four entries for each step of a thread, done or not, two more for each plain step, five for each thread that it starts, two for each
/// that rests at its end, and two.
pub fn driven_runs_are_short()
    ensures moves { DrivenMoveFew }
    ensures runs { DrivenRunsAreShort }
{}
