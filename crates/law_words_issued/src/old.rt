//! Old words that an event leaves: first words of references, and words of pointers from which objects were taken.

ghost use Rattle.law_words_issued.specs.old.Old.{ArrivalsLeaveFirstWords, StepsLeaveFirstWords};

/// From a coherent cluster in which few events were done: after the step of a thread (`steps`), and after the delivery of an object (`arrivals`), the first word of each
/// mutable reference was issued before it. No event changes a first word; and the reference that a mutable borrow makes has that of its pointer, which has the word that it
/// had, since what is read until the place is ready gets no word.
pub fn first_words_are_old()
    ensures steps { StepsLeaveFirstWords }
    ensures arrivals { ArrivalsLeaveFirstWords }
{}
