//! The words of objects where a step makes one, and that different objects have different words.

ghost use Rattle.law_words_values.specs.made.Apart.{NewApart, StayApart, WordsTell};
ghost use Rattle.law_words_values.specs.made.Boxes.{BoxesKeep};

/// From a coherent cluster a step that makes an object gives it a word, under which its one pointer leads to it, leaves each other object the word that it had, and
/// keeps what else is kept of words: references know the words at their holders, dirty references are alone and first words that were left are no words of today.
pub fn boxes_have_words()
    ensures keeps { BoxesKeep }
{}

/// Where each object has a word, all pointers to it that aren't stale have one word, which leads to where it lies (`tells`). And different objects have different words
/// after each event: after one that leaves the words and is no box (`stays`), whatever its kind, since no object comes, and after a box (`makes`), as the new word wasn't issued.
pub fn words_differ()
    ensures tells { WordsTell }
    ensures stays { StayApart }
    ensures makes { NewApart }
{}
