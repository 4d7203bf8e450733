//! Entries of steps that read their place, in the coloured heap, where they are done.

ghost use Rattle.law_entries_reads.specs.places.Reads.{BorrowsThrough, DoneStepsContinue, DoneStepsLegal, ReadsPlace};
ghost use Rattle.law_entries_reads.specs.places.Walks.{WalksReach};

/// Whoever reads a place, star by star, in a coherent cluster: its hops are to objects that lie here, or of which a copy is cached here, under their words, so that each is a legal act, and
/// changes nothing; each load has the object's value in the coloured heap, and the object lies here or a copy of that value is cached here.
pub fn walks_reach_what_they_load()
    ensures { WalksReach }
{}

/// From a coherent cluster with few events the entry of a step that is done is legal in each coloured heap that the cluster stands for, reaches what it loads, and leads to one that it
/// stands for afterwards: of a thread that copies what a place leads to, through however many stars, and of one at a dup that takes the share which it asked for. Its hops are to
/// objects that lie here or of which a copy is cached here, under their words; what it loads is the object's value, and nothing changes.
pub fn reads_are_legal()
    ensures { DoneStepsLegal ReadsPlace }
{}

/// So is the entry of a borrow through stars: a shared one from a pointer whose word shows all changes of its object, and a mutable one, whether its
/// object came for it or lay here.
pub fn borrows_are_legal()
    ensures { DoneStepsLegal BorrowsThrough }
{}

/// A legal journal goes on with the entry of a step whose entry is legal where it is done.
pub fn legal_journals_go_on()
    ensures { DoneStepsContinue }
{}
