//! Mutable references: their marks, and how they end.

ghost use Rattle.std.specs.Prelude.{◌≡◌, ◌+◌, ◌<◌, ◌≤◌, ◌↔◌, ℕ, None, true, false};
ghost use Rattle.global_addr.specs.Words.{colour_of};
ghost use Rattle.mut_borrow.specs.Refs.{changed, cleaned_answer, cleaned_ref, finish_word};

use fr_base::{Lval, ObjNo};
use global_addr::Word;

/// A mutable reference to an object. `word` is the word that it leads by, `first` the word that the pointer at its holder
/// has, and `dirty` says that the object was written through it since `word` was made. The holder is the place whose
/// pointer the reference was made from. No call here takes memory.
#[derive(Clone, Copy, Debug, PartialEq, Eq)]
pub struct MutRef {
    pub word: Word,
    pub first: Word,
    pub object: ObjNo,
    pub dirty: bool,
    pub holder: Lval,
}

/// What cleaning a mutable reference came to.
#[derive(Clone, Copy, Debug, PartialEq, Eq)]
pub enum Cleaned {
    /// It was clean.
    Same,
    /// It is clean now, by this word.
    Tinted(Word),
    /// It is dirty at the last colour: its object needs a new address.
    MustRenew,
}

impl MutRef {
    /// A reference from the pointer at `holder`, which has that word and leads to that object.
    pub fn new(word: Word, object: ObjNo, dirty: bool, holder: Lval) -> MutRef
        ensures { result ≡ record { word = word; first = word; object = object; dirty = dirty; holder = holder } }
    {
        MutRef {
            word,
            first: word,
            object,
            dirty,
            holder,
        }
    }

    /// Notes that the object was written through the reference.
    pub fn note_write(&mut self)
        ensures { self.new ≡ record self.old { dirty = true } }
    {
        self.dirty = true;
    }

    /// Gives the reference the new word of its object; it is clean then.
    pub fn took(&mut self, word: Word)
        ensures { self.new ≡ record self.old { word = word; dirty = false } }
    {
        self.word = word;
        self.dirty = false;
    }

    /// Gives a dirty reference its next colour, so that no old copy is read by its word. `Same` exactly where it isn't
    /// dirty, `MustRenew` exactly where it is dirty at the last colour, `limit - 1`; in both cases it is unchanged. Its
    /// colour is below the limit, which is from 1 to 65,536.
    pub fn clean(&mut self, limit: u32) -> Cleaned
        requires colour { colour_of self.old.word < limit }
        requires limit { limit ≤ 65536 }
        ensures answer { result ≡ cleaned_answer limit self.old }
        ensures reference { self.new ≡ cleaned_ref result self.old }
    {
        if !self.dirty {
            return Cleaned::Same;
        }
        match self.word.next_colour(limit) {
            Some(word) => {
                self.took(word);
                Cleaned::Tinted(word)
            }
            None => Cleaned::MustRenew,
        }
    }

    /// The word that the holder's pointer gets where the reference ends; `None` exactly where it has that word already.
    /// The reference is clean.
    pub fn finish(&self) -> Option<Word>
        requires { self.now.dirty ≡ false }
        ensures { result ≡ finish_word self.now }
    {
        if self.word == self.first {
            None
        } else {
            Some(self.word)
        }
    }
}

/// What `changed` says of a reference: its object was written through it or has another word than the holder's pointer. A
/// reference that isn't changed ends without a word for its holder.
pub fn changed_law()
    ensures changed { (r : MutRef) → (changed r ≡ false) ↔ ((r.dirty ≡ false) × (r.word ≡ r.first)) }
    ensures finish { (r : MutRef) → r.dirty ≡ false → (changed r ≡ false) ↔ (finish_word r ≡ None) }
    ensures clean { (limit : ℕ) (r : MutRef) → changed r ≡ false → cleaned_answer limit r ≡ Cleaned.Same }
{}
