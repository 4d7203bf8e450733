//! Copies of cells, and what each event leaves of them.

ghost use Rattle.law_words_borrows.specs.Below.law_counts_sums.Kinds.{arrives, asks_dup, asks_join, asks_lock, dupped, evicts, fetch, fetched, finished, granted, joined, migrates, released, starts, step_arith, step_par_end, step_print, unlocked};
ghost use Rattle.law_copies_kept.specs.copies.Copies.{AssignsKeepCopies, CopiesComeFromCopies, DiscardsKeepCopies, DropsKeepCopies, KeepCopies, StepsKeepCopies};

/// Whatever an event of a sound cluster does, each copy that is there once its messages are handed over, cached or on its way, was there before under the same word, or is the
/// cell of the object that a request asked for. So where the cell of each word is what it was, or there is none any more (the object has another word, is changed through a
/// reference, or is gone), or the word is a new one, copies are present cells.
pub fn copies_come_from_copies()
    ensures comes { CopiesComeFromCopies }
{}

/// After an event of these kinds each copy is the present cell of the object whose word it has, and each copy that is asked for is one of a live object that isn't changed through a
/// reference: a copy goes, a thread leaves for another server and comes there, one starts, a copy is served and filled, a mutex is asked for, granted and given back, a share of
/// it is asked for and comes, a share or a task is let go, a result is asked for and comes, a home is told that a thread has ended, and a thread prints, computes or goes on
/// at the end of its pair.
pub fn copies_stay()
    ensures evictions { KeepCopies evicts }
    ensures migrations { KeepCopies migrates }
    ensures starts { KeepCopies starts }
    ensures parcels { KeepCopies arrives }
    ensures fetches { KeepCopies fetch }
    ensures copies { KeepCopies fetched }
    ensures locks { KeepCopies asks_lock }
    ensures grants { KeepCopies granted }
    ensures unlocks { KeepCopies unlocked }
    ensures dups { KeepCopies asks_dup }
    ensures shares { KeepCopies dupped }
    ensures releases { KeepCopies released }
    ensures joins { KeepCopies asks_join }
    ensures results { KeepCopies joined }
    ensures ends { KeepCopies finished }
    ensures prints { KeepCopies step_print }
    ensures arithmetic { KeepCopies step_arith }
    ensures pairs { KeepCopies step_par_end }
{}

/// So it is after a step that declares a variable, makes a mutex, joins or ends a thread (`carried`), and one that discards what is no reference to an object, from a sound
/// cluster; and from a coherent one after one that drops the newest variable with what it owns, or without a value, and an unlock (`drops`), and after an assignment to a variable
/// that owns its value or has none (`assigns`): what moves stands outside of cells, and changed references are those that were there.
pub fn carried_values_leave_copies()
    ensures carried { StepsKeepCopies }
    ensures discards { DiscardsKeepCopies }
    ensures drops { DropsKeepCopies }
    ensures assigns { AssignsKeepCopies }
{}
