//! The words of objects where one comes to the thread that waits for it.

ghost use Rattle.law_words_asked.specs.awaited.BorrowArrivals.{BorrowArrivalsKeep};
ghost use Rattle.law_words_asked.specs.awaited.EndArrivals.{EndArrivalsKeep};
ghost use Rattle.law_words_asked.specs.awaited.ReadArrivals.{ReadArrivalsKeep};
ghost use Rattle.law_words_asked.specs.awaited.TakenUp.{TakingKeeps};
ghost use Rattle.law_words_asked.specs.awaited.WriteArrivals.{WriteArrivalsKeep};

/// Where the object comes that the next hop of an assignment or a move out through stars leads to, each object has a word afterwards, references know the words at
/// their holders, dirty references are alone and first words that were left are no words of today: the pointer at which the thread waits, in a slot or in a cell behind
/// the hops that are passed, is the one through which the object is written, and gets a word that wasn't issued; and the reference that led straight to its cell is marked.
pub fn write_arrivals_keep_words()
    ensures write { WriteArrivalsKeep }
{}

/// So it is where the object comes to a copy, a dup, a lock or a shared borrow: a dirty mutable reference leads to it, which stands in a slot, isn't stale and so is alone.
pub fn read_arrivals_keep_words()
    ensures read { ReadArrivalsKeep }
{}

/// And so it is where it comes to a mutable borrow: a reference on the way gets its word as at a read, or the thread takes the object from the last pointer of its place. Then the
/// word stands in its phase, and every pointer to the object in slots, temporary values and cells is stale, as this one is the one through which it is written.
pub fn borrow_arrivals_keep_words()
    ensures taking { TakingKeeps }
    ensures borrow { BorrowArrivalsKeep }
{}

/// And so it is where the object of a mutable reference comes that an assignment or the drop of a slot ends there: that reference is the pointer through which it is written.
pub fn end_arrivals_keep_words()
    ensures end { EndArrivalsKeep }
{}
