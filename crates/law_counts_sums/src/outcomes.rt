//! That an event that is enabled has a result.

ghost use Rattle.law_counts_sums.specs.Laws.{AnswersHaveResults, DupsHaveResults, EvictionsHaveResults, FetchedHaveResults, FinishesHaveResults, JoinsHaveResults, MigrationsHaveResults, MovedHaveResults, MutexesHaveResults, ObjectsHaveResults, ParcelsHaveResults, StartsHaveResults, StepsHaveResults, TasksLetGoHaveResults};

/// The eviction of a copy that nobody uses, in whatever cluster, and the delivery of a thread, in a sound one.
pub fn leaving_and_arriving()
    ensures evictions { EvictionsHaveResults }
    ensures starts { StartsHaveResults }
    ensures parcels { ParcelsHaveResults }
{}

/// The delivery of what a thread waits for and takes as its gift, in a sound cluster.
pub fn giving()
    ensures { AnswersHaveResults }
{}

/// The delivery of a `lock`, of an `unlock`, and of the `release` of a mutex, in a sound cluster.
pub fn mutexes()
    ensures { MutexesHaveResults }
{}

/// The delivery of a `dup`, of a `fetched`, and of a `moved` whose thread has passed no hop of a write, in a sound cluster where fewer than 2^31 - 1
/// events were done.
pub fn counting()
    ensures dups { DupsHaveResults }
    ensures copies { FetchedHaveResults }
    ensures objects { MovedHaveResults }
{}

/// The delivery of a `fetch`, a `move` or a `drop`, in a sound cluster: its object lies where the word leads.
pub fn objects()
    ensures { ObjectsHaveResults }
{}

/// The delivery of a message about a thread that another one started, in a sound cluster: it has ended, it is joined, or its task was dropped.
pub fn tasks()
    ensures finished { FinishesHaveResults }
    ensures joined { JoinsHaveResults }
    ensures let_go { TasksLetGoHaveResults }
{}

/// A migration that is enabled, in a sound cluster.
pub fn moving()
    ensures { MigrationsHaveResults }
{}

/// The step of a thread that has got what it waited for, at the end of a pair or at a join, in a sound cluster.
pub fn getting()
    ensures { StepsHaveResults }
{}
