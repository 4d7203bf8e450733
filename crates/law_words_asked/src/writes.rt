//! The words of objects where a step writes through a place.

ghost use Rattle.law_words_asked.specs.writes.Writing.{WritesThatAsk};

/// Where a thread assigns through stars or moves out through them, and the step ends in a request, each object has a word, references know the words at their
/// holders, dirty references are alone and first words that were left are no words of today: each hop that is ready gave its box the next colour, or its object
/// another address, and marked the reference that led there. That is a pointer through which the object is written, by types at the event's start, and it stays
/// one from hop to hop.
pub fn writes_keep_words()
    ensures asks { WritesThatAsk }
{}
