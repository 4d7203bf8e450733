//! Laws of words at borrows.

ghost use Rattle.law_words_borrows.specs.Borrows.{MutableBorrowsKeep, SharedBorrowsKeep};

/// From a coherent cluster a shared borrow keeps the words, of a variable or through stars, done or not: each object has a word, references know the words at their
/// holders, dirty references are alone and first words that were left are no words of today. Through stars the new reference is one pointer more to its object, with
/// that object's word, as the pointer it is made from isn't stale; and where that is a dirty reference it gets a new word first, at the last colour with a new address.
pub fn shared_borrows_keep_words()
    ensures keep { SharedBorrowsKeep }
{}

/// So does a mutable borrow, done or not. Where the object lies at the thread's server, the new reference has its pointer's word and, from a mutable reference, its mark:
/// where that is dirty the new one is, and the one it was made from is stale from then on. Where the thread has taken the object for it, the new reference has the word
/// under which it was taken, and the pointer it was made from stays stale, as it has another one; such a thread asks for nothing.
pub fn mutable_borrows_keep_words()
    ensures keep { MutableBorrowsKeep }
{}
