//! Copies of cells where objects come, leave and go, where threads start, and at borrows.

ghost use Rattle.law_copies_kept.specs.objects.Fresh.{BoxesKeepCopies, DeliveredDropsKeepCopies, DeliveredMovesKeepCopies, MutableBorrowsKeepCopies, SharedBorrowsKeepCopies, StartsKeepCopies};

/// From a sound cluster copies are right after the delivery of a `move`, each the present cell of the object whose word it has, and each that is asked for one of a live object that
/// isn't changed through a reference: the object is under way with the word that it had, and all else is as it was.
pub fn delivered_moves_keep_copies()
    ensures { DeliveredMovesKeepCopies }
{}

/// And from a coherent one after the delivery of a `drop`: no place leads to the object that goes, so nobody has asked for a copy of it.
pub fn delivered_drops_keep_copies()
    ensures { DeliveredDropsKeepCopies }
{}

/// And after a step that makes an object: its word wasn't issued before, so there is no copy under it.
pub fn boxes_keep_copies()
    ensures { BoxesKeepCopies }
{}

/// And after one that starts a thread or a pair: what moves is owned, and no holder passes the slots that it leaves.
pub fn starts_keep_copies()
    ensures { StartsKeepCopies }
{}

/// And after a shared borrow, done or not: a dirty reference that it is made from gets a word first that wasn't issued, and what is asked for is a copy of a clean cell, or an object.
pub fn shared_borrows_keep_copies()
    ensures { SharedBorrowsKeepCopies }
{}

/// And after a mutable one, done or not, whether its object was taken or not: where it is made from a dirty reference, the new one is dirty, and the old one stale from then on.
pub fn mutable_borrows_keep_copies()
    ensures { MutableBorrowsKeepCopies }
{}
