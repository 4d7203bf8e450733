//! Laws of writes through stars that are done.

ghost use Rattle.law_words_writes.specs.Stored.{AssignmentsKeep, MovesKeep};

/// Where a thread assigns through stars, each object has a word afterwards, references know the words at their holders, dirty references are alone and first words
/// that were left are no words of today, whether the step is done or asks for an object. What stood at the place becomes the thread's gift and is dropped, then the
/// value becomes the gift, and comes to the place, at which nothing is.
pub fn assignments_keep_words()
    ensures assigns { AssignmentsKeep }
{}

/// So it is where a thread moves out through stars: what stood at the place becomes the thread's gift, and then its newest temporary value. That place is a cell's, as
/// it leads over boxes alone.
pub fn moves_keep_words()
    ensures moves { MovesKeep }
{}
