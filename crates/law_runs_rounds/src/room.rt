//! Runs in rounds don't depend on the room of lists in their code.

ghost use Rattle.law_runs_rounds.specs.room.Rooms.{RunsAreOne, RunsKnowNoRoom};

/// A code without the room that its lists of captured slots have for more has the same run in rounds, with the same journal, as the code itself (`bare`). So two codes
/// that differ in that room alone have the same run (`one`).
pub fn runs_know_no_room()
    ensures bare { RunsKnowNoRoom }
    ensures one { RunsAreOne }
{}
