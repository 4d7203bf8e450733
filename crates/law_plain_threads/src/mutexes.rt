//! A plain step at a mutex keeps a state typed, for running terms and code alike.

ghost use Rattle.law_plain_values.specs.acts.Keeps.{Keeps, KeepsNamed, KeepsUnlessWaiting};
ghost use Rattle.law_plain_threads.specs.mutexes.Example.{DupIsReady, LockIsReady, MakeIsReady, UnlockIsReady};
ghost use Rattle.law_plain_threads.specs.mutexes.MutexActs.{IsDup, IsLocking, IsMake, IsUnlocking};

/// In a typed state, with whatever threads, mutexes and pairs, an act of this form that a row grants can be done without a new
/// name, and leaves a typed state; a lock, unless its mutex's content is out, and a new mutex under each name of a mutex that
/// wasn't given. A clause an act.
pub fn mutex_acts_keep_types()
    ensures make { KeepsNamed IsMake }
    ensures dup { Keeps IsDup }
    ensures lock { KeepsUnlessWaiting IsLocking }
    ensures unlock { Keeps IsUnlocking }
{}

/// At main's start a mutex of 1 may be made; once it is bound, it may be dupped, or locked without waiting, and then unlocked. So there
/// are typed states in which the acts of the law above are granted, each by the laws before it.
pub fn mutex_acts_are_ready()
    ensures make { MakeIsReady }
    ensures dup { DupIsReady }
    ensures lock { LockIsReady }
    ensures unlock { UnlockIsReady }
{}
