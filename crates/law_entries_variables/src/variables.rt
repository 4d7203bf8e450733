//! Entries of steps without stars in the coloured heap.

ghost use Rattle.law_words_ends.specs.Below.law_counts_sums.Kinds.{step_end, step_join, step_let, step_mutex};
ghost use Rattle.law_entries_variables.specs.deliveries.Entries.{EntriesLegal, JournalGoesOn};
ghost use Rattle.law_entries_variables.specs.variables.Steps.{DropsPlain, EndsClean, Pairs, Spawns, StepsLegal, TakesGift, Unlocks};

/// From a sound cluster with few events the entry of a step of these kinds is legal in each coloured heap that the cluster stands for, and leads to one that it stands for
/// afterwards, the messages handed over: a variable is declared, a result is asked for or taken, a mutex is made, and a thread ends.
pub fn task_steps_are_legal()
    ensures variables { EntriesLegal step_let }
    ensures joins { EntriesLegal step_join }
    ensures mutexes { EntriesLegal step_mutex }
    ensures ends { EntriesLegal step_end }
{}

/// So where a legal journal has left the coloured heap of a sound cluster, the journal with the entry of such a step is legal, and leaves that of the cluster afterwards.
pub fn task_journals_go_on()
    ensures variables { JournalGoesOn step_let }
    ensures joins { JournalGoesOn step_join }
    ensures mutexes { JournalGoesOn step_mutex }
    ensures ends { JournalGoesOn step_end }
{}

/// From a coherent cluster the entry is legal so too of a step with which a value goes that is no mutable reference to an object: it is discarded, or goes with the newest slot, and what it owns is let go.
pub fn plain_drops_are_legal()
    ensures { StepsLegal DropsPlain }
{}

/// So is that of a step with which a clean mutable reference ends that has its first word, or was made from the pointer in a variable.
pub fn clean_ends_are_legal()
    ensures { StepsLegal EndsClean }
{}

/// So is that of a lock or a dup of the mutex in a variable, where what it asked for is there.
pub fn gifts_are_legal()
    ensures { StepsLegal TakesGift }
{}

/// And that of an unlock: who gives a content back is the thread that it was granted to.
pub fn unlocks_are_legal()
    ensures { StepsLegal Unlocks }
{}

/// And those of a start of a thread and of a pair: none had such a name before, and the servers that the acts name are those that the names tell.
pub fn starts_are_legal()
    ensures threads { StepsLegal Spawns }
    ensures pairs { StepsLegal Pairs }
{}
