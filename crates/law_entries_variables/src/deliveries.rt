//! Entries of events in the coloured heap.

ghost use Rattle.law_words_ends.specs.Below.law_counts_sums.Kinds.{arrives, asks_dup, asks_join, asks_lock, dupped, evicts, finished, granted, joined, migrates, released, starts, unlocked};
ghost use Rattle.law_entries_variables.specs.deliveries.Entries.{EntriesLegal, LegalEntriesContinue};

/// From a sound cluster with few events the entry of an event of these kinds is legal in each coloured heap that the cluster stands for, and leads to one that it stands for
/// afterwards, the messages handed over: a copy goes, a thread starts, leaves for another server or comes
/// from one, a mutex's content, a share of it or a result is asked for, and comes, a content comes back, a share or a task is let go, and a home
/// is told that a thread has ended.
pub fn entries_are_legal()
    ensures evictions { EntriesLegal evicts }
    ensures migrations { EntriesLegal migrates }
    ensures starts { EntriesLegal starts }
    ensures parcels { EntriesLegal arrives }
    ensures locks { EntriesLegal asks_lock }
    ensures dups { EntriesLegal asks_dup }
    ensures joins { EntriesLegal asks_join }
    ensures grants { EntriesLegal granted }
    ensures shares { EntriesLegal dupped }
    ensures results { EntriesLegal joined }
    ensures unlocks { EntriesLegal unlocked }
    ensures releases { EntriesLegal released }
    ensures ends { EntriesLegal finished }
{}

/// So where a legal journal has left the coloured heap of a sound cluster, the journal with the entry of such an event is legal, and leaves that of the cluster afterwards.
pub fn legal_entries_continue()
    ensures { LegalEntriesContinue }
{}
