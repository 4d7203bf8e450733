//! The words of objects where an object goes.

ghost use Rattle.law_words_values.specs.freed.Drops.{DropsLeave};
ghost use Rattle.law_words_values.specs.freed.Freed.{FreedLeaves};

/// Where an object goes to which no place leads, and what it owned points from no place then, each other object has the word that it had. So it is where a `drop` is
/// delivered: the message is the object's one owner, so it isn't in the one heap, and no reference leads there.
pub fn objects_go()
    ensures freed { FreedLeaves }
    ensures drops { DropsLeave }
{}
