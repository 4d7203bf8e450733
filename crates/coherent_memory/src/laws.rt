//! Laws of coherent memory.

ghost use Rattle.coherent_memory.specs.Laws.{HandOverLaw, SoundLaw, StartLaw};
ghost use Rattle.coherent_memory.specs.Following.{FollowLaw};
ghost use Rattle.coherent_memory.specs.ColouredStates.{StatesAreTold};
ghost use Rattle.coherent_memory.specs.Appended.{RowsSendTheirActs};
ghost use Rattle.coherent_memory.specs.Stale.{RoundsLaw};
ghost use Rattle.coherent_memory.specs.Words.{WordsLaw};
ghost use Rattle.coherent_memory.specs.Dirty.{DirtyLaw, PastLaw};
ghost use Rattle.coherent_memory.specs.Passing.{FollowedLaw, PassedLaw, PathsLaw};
ghost use Rattle.coherent_memory.specs.Turn.{TurnLaw};

/// A cluster breaks no sentence exactly where it is sound.
pub fn sound_is_unbroken()
    ensures { SoundLaw }
{}

/// Sentences that follow from others: each thread has one task value at most, and the two of a pair that have both ended have none; the two of
/// a pair differ; each mutex that is named is there; what a thread waits for is under its object's word.
pub fn some_follow()
    ensures { FollowLaw }
{}

/// Handing messages over changes no sum, and the start of any code has one home and one owner for each object, no copy and no user.
pub fn sums_stay()
    ensures handed { HandOverLaw }
    ensures starts { StartLaw }
{}

/// States of the shared memory that differ in one thing from the one that a cluster stands for aren't it.
pub fn states_are_told()
    ensures { StatesAreTold }
{}

/// The messages that each event of the rows appends, to the waiting ones of its server and to its outbox, are those of its acts.
pub fn rows_send_their_acts()
    ensures { RowsSendTheirActs }
{}

/// The rounds that tell stale pointers find what the rule says.
pub fn rounds_tell_stale()
    ensures { RoundsLaw }
{}

/// The objects of a cluster have words exactly where nothing is counted that breaks it, and the first pointer that isn't stale tells an object's word.
/// Dirty references that aren't stale are alone exactly where none is counted, and first words that were left are no words of today exactly where nothing is counted.
pub fn words_are_told()
    ensures words { WordsLaw }
    ensures dirty { DirtyLaw }
    ensures past { PastLaw }
{}

/// What computes where a place leads, star by star, tells the path that leads there. Nothing is counted of what a write has passed exactly where it
/// may pass each hop, nor of what a step has followed where each pointer on the way is at hand,
/// nor of what is waited for where each thread waits in turn.
pub fn paths_are_told()
    ensures paths { PathsLaw }
    ensures passed { PassedLaw }
    ensures followed { FollowedLaw }
    ensures turn { TurnLaw }
{}
