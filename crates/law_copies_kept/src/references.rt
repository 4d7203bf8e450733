//! Copies of cells where references go and come, and where places are read.

ghost use Rattle.law_copies_kept.specs.references.Clean.{ReadsKeepCopies, ReferencesKeepCopies, VariableBorrowsKeepCopies};

/// From a coherent cluster copies are right, each the present cell of the object whose word it has, and each that is asked for one of a live object that isn't changed through a
/// reference, after a step that moves whatever stands in a variable, or with which a reference to a slot or a shared one goes (`go`), and after a borrow of a variable (`borrows`).
pub fn references_keep_copies()
    ensures go { ReferencesKeepCopies }
    ensures borrows { VariableBorrowsKeepCopies }
{}

/// And after one that copies what is at a place, or takes a share or the content of the mutex there, through however many stars, whether it is done or asks: for a copy of what
/// a pointer on its way leads to, which gets the next colour first where that is a dirty reference, for its object where no colour is left, or for the mutex.
pub fn reads_keep_copies()
    ensures reads { ReadsKeepCopies }
{}
