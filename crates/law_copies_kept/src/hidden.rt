//! Copies where objects change under words of which no copy is.

ghost use Rattle.law_copies_kept.specs.hidden.Hidden.{CopiesComeUnderWords};

/// Whatever an event of a sound cluster does, copies are present cells afterwards, where the live object of each word is what it was, or there is none any more, or the word wasn't
/// issued before, or no copy under it was there, nor asked for: then none is there afterwards.
pub fn copies_come_under_words()
    ensures { CopiesComeUnderWords }
{}
