//! The words of objects where a step reads and where it ends in a request.

ghost use Rattle.law_words_kept.specs.prepared.Requests.{CopiesKeep, DupsKeep, ReadsThatAsk};

/// Where a thread reads its place, or borrows from it, and the step ends in a request, each object has a word, references know the words at their holders, dirty
/// references are alone and first words that were left are no words of today: on the way copies are used and kept in use, and dirty references to objects
/// elsewhere get the next colour, which no types are asked for, as such a reference is alone.
pub fn requests_keep_words()
    ensures reads { ReadsThatAsk }
{}

/// Where a thread copies a place, it is so whether the step is done or asks for a copy: no place leads to the value on top, and of a shared reference there is
/// one already that points to the same object. So it is at a dup, where a share comes on top that is no pointer.
pub fn copies_keep_words()
    ensures copies { CopiesKeep }
    ensures dups { DupsKeep }
{}
