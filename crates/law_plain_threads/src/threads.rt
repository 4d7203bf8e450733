//! A plain step that starts, ends or joins threads keeps a state typed, for running terms and code alike.

ghost use Rattle.law_plain_values.specs.acts.Keeps.{KeepsNamed, KeepsUnlessWaiting};
ghost use Rattle.law_plain_threads.specs.threads.Example.{FinishIsReady, JoinIsReady, ParEndIsReady, ParIsReady, StartIsReady};
ghost use Rattle.law_plain_threads.specs.threads.ThreadActs.{FinishKeeps, IsJoin, IsPar, IsParEnd, IsSpawn};

/// In a typed state, with whatever threads, mutexes and pairs, an act of this form that a row grants can be done, and leaves a typed
/// state: starting a thread, with what it captures, under each name of a thread that wasn't given; the end of a thread whose result
/// is kept; a join, unless the other thread goes on; the start of a pair, with what both capture (copies, what moves, and views of
/// what references lead to), under each two names of threads that weren't given; and its end, unless one of the two goes on. A
/// clause an act.
pub fn thread_acts_keep_types()
    ensures start { KeepsNamed IsSpawn }
    ensures finish { FinishKeeps }
    ensures join { KeepsUnlessWaiting IsJoin }
    ensures par { KeepsNamed IsPar }
    ensures par_end { KeepsUnlessWaiting IsParEnd }
{}

/// Once main has bound 1, a thread may be started that captures it, or a pair of threads that both do. A thread without captures may
/// end, and then be joined. Where both threads of a pair have ended, their parent may go on. So there are typed states in which the
/// acts of the law above are granted.
pub fn thread_acts_are_ready()
    ensures start { StartIsReady }
    ensures finish { FinishIsReady }
    ensures join { JoinIsReady }
    ensures par { ParIsReady }
    ensures par_end { ParEndIsReady }
{}
