//! Entries of deliveries of objects and copies in the coloured heap.

ghost use Rattle.law_entries_variables.specs.Below.law_counts_sums.Kinds.{fetch, fetched, moving};
ghost use Rattle.law_entries_reads.specs.served.Served.{CoherentEntriesLegal, LegalEntryContinues};

/// From a coherent cluster with few events the entry of an event of these kinds is legal in each coloured heap that the cluster stands for, and leads to one that it stands for
/// afterwards, the messages handed over: a copy is asked for and served, it comes to the cache, and an object leaves for the thread that asked for it. No object that is asked for, or
/// of which a copy was, is given up: a place of the thread that waits leads to it.
pub fn served_entries_are_legal()
    ensures fetches { CoherentEntriesLegal fetch }
    ensures copies { CoherentEntriesLegal fetched }
    ensures moves { CoherentEntriesLegal moving }
{}

/// Where a legal journal has left the coloured heap of a cluster, whichever cluster that is, the journal with the entry of an event is legal too if that entry is, and leaves the coloured
/// heap of the cluster afterwards.
pub fn legal_entry_continues()
    ensures { LegalEntryContinues }
{}
