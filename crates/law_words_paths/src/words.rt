//! How the words of objects go on where one of them changes.

ghost use Rattle.law_words_paths.specs.words.Example.{WordsApply};
ghost use Rattle.law_words_paths.specs.words.OneMore.{OneMoreStays};
ghost use Rattle.law_words_paths.specs.words.PutBack.{CellsReword, MarkRewords, SlotsReword, TintKeepsWords, TintRewords};
ghost use Rattle.law_words_paths.specs.words.Soles.{AreOnly, SolesStay, WrittenAreSole};
ghost use Rattle.law_words_paths.specs.words.Unmoved.{EvictionsUnmoved, FetchesUnmoved, UnmovedStays, UntouchedStays};
ghost use Rattle.law_words_paths.specs.words.WordsAfter.{AreNoFirsts, ChangedRewords, DirtyGoOn, FreshGoOn, HoldersGoOn, NewWordsGoOn, PastGoesOn, WordsGoOn};

/// A pointer that a thread may write through, and that isn't stale, is the one through which its object is written: each other pointer to the object stands above
/// it, and no reference was made from it. That sees no words, marks and pins, and no types, so it stays from one small step of an event to the next. It is
/// the only pointer to the object that isn't stale and isn't above it, and so is a dirty reference that isn't stale.
pub fn soles_stay()
    ensures written { WrittenAreSole }
    ensures steps { SolesStay }
    ensures only { AreOnly }
{}

/// Where such a pointer gets another word, and the object lies where that leads, each object has a word as before: whoever else points to the object was stale
/// or stands above that pointer, and is stale. References know the words at their holders as before, and dirty references
/// are alone; other pointers through which objects are written don't become stale. What was before the words of today goes on too, where the new word is no
/// reference's first one, as none is that wasn't issued. In one coherent cluster all that is asked is there.
pub fn words_go_on()
    ensures words { WordsGoOn }
    ensures holders { HoldersGoOn }
    ensures dirty { DirtyGoOn }
    ensures past { PastGoesOn }
    ensures no_firsts { AreNoFirsts }
    ensures new_words { NewWordsGoOn }
    ensures fresh { FreshGoOn }
    ensures changed { ChangedRewords }
    ensures applies { WordsApply }
{}

/// A tint is such a change: where the box or the mutable reference in a slot gets the next colour, the cluster with the thread put back is as it was but for
/// that word. So it leaves each object a word, where the thread may write through that pointer; that the next colour wasn't issued follows from the words of
/// objects. The mark of a write on the mutable reference that led to its cell is such a change too, with the word as it was.
pub fn small_steps_reword()
    ensures tints { TintRewords }
    ensures words { TintKeepsWords }
    ensures slots { SlotsReword }
    ensures cells { CellsReword }
    ensures marks { MarkRewords }
{}

/// Where nothing changes that words see, each object has the word that it had, references know the words at their holders, dirty references are alone, and first
/// words that were left are no words of today. No types are asked for. A pointer more at no location, with its object's word, leaves that
/// too. An eviction at its server is an event that changes nothing, and so is the delivery of a `fetch`.
pub fn words_stay()
    ensures unmoved { UnmovedStays }
    ensures untouched { UntouchedStays }
    ensures one_more { OneMoreStays }
    ensures evictions { EvictionsUnmoved }
    ensures fetches { FetchesUnmoved }
{}
