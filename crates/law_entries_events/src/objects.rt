//! Entries of deliveries of objects that come, and of objects that go, in the coloured heap.

ghost use Rattle.law_runs_whole.specs.Below.law_counts_sums.Kinds.{drop, moved};
ghost use Rattle.law_entries_events.specs.objects.Objects.{CoherentJournalGoesOn};
ghost use Rattle.law_entries_writes.specs.Below.law_entries_reads.served.Served.{CoherentEntriesLegal};

use law_runs_whole::events_keep_coherence;

/// From a coherent cluster with few events the entry of the delivery of a `drop` is legal in each coloured heap that the cluster stands for, and leads to one that it stands for afterwards,
/// the messages handed over: the object's block lay here, under its word and condemned, and is freed, and what it held is let go: the object of a box is condemned under its present word, a
/// mutex or a task that was named is let go (`legal`). So a legal journal goes on with it (`goes_on`).
pub fn objects_go_legally()
    ensures legal { CoherentEntriesLegal drop }
    ensures goes_on { CoherentJournalGoesOn drop }
{}

/// So it is where an object comes: it was on its way here under its word and isn't condemned, as the place of the thread that waits leads to it; it lies here then under a word that was never
/// issued and is issued now, each other object has the word that it had, and no other word is issued (`legal`). So a legal journal goes on with it (`goes_on`).
pub fn objects_come_legally()
    ensures legal { CoherentEntriesLegal moved }
    ensures goes_on { CoherentJournalGoesOn moved }
{
    events_keep_coherence();
}
