//! Entries of steps that end in a request, in the coloured heap.

ghost use Rattle.law_entries_reads.specs.asks.Asking.{AskingContinues, MutableBorrowsThatAskLegal, ReadsThatAskLegal, SharedBorrowsThatAskLegal};

/// From a coherent cluster with few events the entry of a step at a copy of a place, a dup or a lock that ends in a request is legal in each coloured heap that the cluster stands for,
/// and leads to one that it stands for afterwards, the messages handed over, through however many stars: it asks for a copy of what a pointer on the way leads to, which gets the next
/// colour first where that is a dirty reference, for its object where no colour is left, or for the content or a share of the mutex there.
pub fn reads_that_ask_are_legal()
    ensures { ReadsThatAskLegal }
{}

/// So is that of a borrow, shared or mutable, through however many stars: it asks on the way as a read does, or for the object of the pointer that it borrows from. A thread that has
/// taken its object for a mutable borrow asks for nothing.
pub fn borrows_that_ask_are_legal()
    ensures shared { SharedBorrowsThatAskLegal }
    ensures mutable { MutableBorrowsThatAskLegal }
{}

/// So where a legal journal has left the coloured heap of a cluster, whichever cluster that is, the journal with such an entry is legal, and leaves that of the cluster afterwards.
pub fn asking_entries_continue()
    ensures { AskingContinues }
{}
