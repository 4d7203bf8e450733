//! Events in which an object moves or a reference ends, and how the words of objects go on there.

ghost use Rattle.law_words_kept.specs.moves.Ended.{EndsLeaveWords};
ghost use Rattle.law_words_kept.specs.moves.Example.{EndsApply};
ghost use Rattle.law_words_kept.specs.moves.Relaid.{RelaidRewords, RenewalsReword};

/// Where an object leaves its address for another one, or comes to one, and its pointer gets the word that leads there, this is one change of that pointer's word:
/// so each object has a word as before, where the pointer is the one through which the object is written. A renewal is such a change, in a slot or a cell.
pub fn moves_reword()
    ensures relaid { RelaidRewords }
    ensures renewals { RenewalsReword }
{}

/// Where a clean mutable reference that isn't stale ends, and the pointer that it was made from gets its word, each object has the word that it had: what becomes
/// fresh is that pointer, and what is joined to it by unchanged references. References know the words at their holders, dirty references are alone,
/// and no first word that was left is a word of today. An event of a cluster is such an end.
pub fn ends_leave_words()
    ensures words { EndsLeaveWords }
    ensures applies { EndsApply }
{}
