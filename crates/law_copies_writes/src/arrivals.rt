//! Copies of cells where an object comes to a thread that waits for it.

ghost use Rattle.law_copies_writes.specs.arrivals.Landed.{ArrivalsKeepCopies, BorrowArrivalsKeepCopies, EndArrivalsKeepCopies, ReadArrivalsKeepCopies, WriteArrivalsKeepCopies};

/// From a coherent cluster copies are right after an object comes to a thread that copies its place, dups, locks or borrows from it: the object was changed through a dirty
/// reference, and that gets a word that wasn't issued, so no copy is under it.
pub fn read_arrivals_keep_copies()
    ensures { ReadArrivalsKeepCopies }
{}

/// And to one that borrows its place mutably: the word under which it takes the object wasn't issued, and nobody else reads what it has in boxes of its slots.
pub fn borrow_arrivals_keep_copies()
    ensures { BorrowArrivalsKeepCopies }
{}

/// And to one that assigns or moves out through stars: where the pointer that gets the word stands in a cell, either a box led there that was passed, so no copy of the cell is
/// under its word, or a mutable reference, which is marked.
pub fn write_arrivals_keep_copies()
    ensures { WriteArrivalsKeepCopies }
{}

/// And to one that ends a mutable reference, whether its own object comes or one to which the place of its holder leads.
pub fn end_arrivals_keep_copies()
    ensures { EndArrivalsKeepCopies }
{}

/// So they are after each delivery of an object that comes, whatever waits for it.
pub fn arrivals_keep_copies()
    ensures { ArrivalsKeepCopies }
{}
