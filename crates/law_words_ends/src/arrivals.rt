//! The words of objects where one comes back to the end of a reference, and after each event.

ghost use Rattle.law_words_ends.specs.arrivals.Events.{EventsKeepWords, WordsRiseAlways};
ghost use Rattle.law_words_ends.specs.arrivals.Regained.{ArrivalsKeep, EndsRegain};

/// Where the object comes of a mutable reference that ends, or one to which the place of its holder leads, each object has a word afterwards, references know the words at
/// their holders, dirty references are alone and first words that were left are no words of today (`ends`): in a slot or in the hand, the reference is the pointer through
/// which its object is written, and so is each pointer before the holder's on that place. So it is where an object comes, whatever waits for it (`each`).
pub fn arrivals_keep_words()
    ensures ends { EndsRegain }
    ensures each { ArrivalsKeep }
{}

/// From a coherent cluster so it is after each event, whatever it is: a step of each instruction, done or not, the delivery of each message, a copy that goes, and a thread
/// that leaves for another server.
pub fn events_keep_words()
    ensures { EventsKeepWords }
{}

/// And words rise: after each event the word of each object is the one that it had before it, or wasn't issued then.
pub fn words_rise()
    ensures { WordsRiseAlways }
{}
