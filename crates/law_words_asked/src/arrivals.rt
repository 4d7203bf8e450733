//! The words of an object where it comes to another server.

ghost use Rattle.law_words_asked.specs.arrivals.Arrivals.{ArrivalsReword};
ghost use Rattle.law_words_asked.specs.arrivals.Awaited.{ArrivalsAwaited};

/// Where the message is delivered that has an object, this lies at its server's next address, and all else is as it was: so where its pointer gets the word that leads
/// there, in a slot or in a cell, this is one change of that pointer's word, beside the cluster in which the object was under way.
pub fn arrivals_reword()
    ensures arrivals { ArrivalsReword }
{}

/// The object that a message brings to a thread that waits under its word is what that thread waits for in turn: it waits for one answer, and what it waits for is
/// under way to it.
pub fn arrivals_are_awaited()
    ensures awaited { ArrivalsAwaited }
{}
