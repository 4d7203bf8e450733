//! Different live objects have different words, after each event.

ghost use Rattle.law_words_issued.specs.apart.Words.{ObjectsStayApart};

/// From a coherent cluster in which few events were done, different live objects have different words after each event, whatever it is. Where two lie, their words lead to
/// different places. An object that is under way has a word that was issued before the event, since no step sends one away and a `move` leaves words; and
/// the other one's word is the one that it had, which was another one, or wasn't issued then.
pub fn objects_stay_apart()
    ensures { ObjectsStayApart }
{}
