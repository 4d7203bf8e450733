//! Events in which each object keeps its word.

ghost use Rattle.law_counts_sums.specs.Kinds.{arrives, asks_dup, asks_join, asks_lock, dupped, evicts, fetch, fetched, finished, granted, joined, migrates, released, starts, step_arith, step_join, step_par_end, step_print, unlocked};
ghost use Rattle.law_words_kept.specs.stays.Laws.{LeaveWords, LeaveWordsUndone, VariableBorrowsLeaveWords};

/// Each object has the word that it had, references know the words at their holders, dirty references are alone and first words that were left are no words of
/// today, where an event of these kinds is done in a sound cluster and its messages are handed over: a copy goes, a thread leaves for another server and comes there, one starts, a copy is served and filled, a
/// mutex is asked for, granted and given back, a share of it is asked for and comes, a share or a task is let go, a result is asked for and comes, and a home is told that a thread has ended.
pub fn events_leave_words()
    ensures evictions { LeaveWords evicts }
    ensures migrations { LeaveWords migrates }
    ensures starts { LeaveWords starts }
    ensures parcels { LeaveWords arrives }
    ensures fetches { LeaveWords fetch }
    ensures copies { LeaveWords fetched }
    ensures locks { LeaveWords asks_lock }
    ensures grants { LeaveWords granted }
    ensures unlocks { LeaveWords unlocked }
    ensures dups { LeaveWords asks_dup }
    ensures shares { LeaveWords dupped }
    ensures releases { LeaveWords released }
    ensures joins { LeaveWords asks_join }
    ensures results { LeaveWords joined }
    ensures ends { LeaveWords finished }
{}

/// So it is where a thread prints, computes or goes on at the end of its pair, as what is popped leads nowhere, where it asks for the result that it
/// joins, and where it borrows a variable, since no place leads to the reference on top.
pub fn steps_leave_words()
    ensures prints { LeaveWords step_print }
    ensures arithmetic { LeaveWords step_arith }
    ensures pairs { LeaveWords step_par_end }
    ensures joins { LeaveWordsUndone step_join }
    ensures borrows { VariableBorrowsLeaveWords }
{}
