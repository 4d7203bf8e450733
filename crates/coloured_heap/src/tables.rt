//! Tables of what a journal's acts have left so far, by name.

ghost use Rattle.std.specs.Prelude.{◌≡◌, is_some, option_map};
ghost use Rattle.coloured_heap.specs.Heap.{Coloured, object_at, thread_at, mutex_at, next_served, is_cached, is_wished, is_issued};
ghost use Rattle.coloured_heap.specs.Tables.{Shows, seen, stand_of, wish_of, lies_here, flies_here, is_placed};

use crate::bag::Bag;
use crate::keys::{MutexKey, ObjectKey, Wish, mutex_key, object_key};
use fr_base::{MutexNo, ObjNo, ThreadNo};
use global_addr::Word;
use indexmap::{IndexMap, IndexSet};

/// Where an object is: it lies at a server, or it is on its way to one.
#[derive(Clone, Copy, Debug, PartialEq, Eq)]
pub(crate) enum Place {
    Lies(u8),
    Flies(u8),
}

/// What the rules ask of an object: where it is, its word, and whether its pointer was given up.
#[derive(Clone, Copy, Debug)]
pub(crate) struct Object {
    pub(crate) place: Place,
    pub(crate) word: Word,
    pub(crate) is_condemned: bool,
}

/// What the rules ask of a thread: where it stands, and whether it has finished.
#[derive(Clone, Copy, Debug)]
pub(crate) struct Stand {
    pub(crate) server: u8,
    pub(crate) has_ended: bool,
}

/// What the rules ask of all that a journal's acts have left so far. A table has a name at most once.
#[derive(Drop)]
pub(crate) struct Tables {
    pub(crate) objects: IndexMap<ObjectKey, Object>,
    pub(crate) cached: IndexSet<(u8, Word)>,
    // the copies that are on their way: which object, under which word, to which server
    pub(crate) served: Bag<(ObjectKey, Word, u8)>,
    pub(crate) issued: IndexSet<Word>,
    pub(crate) threads: IndexMap<u64, Stand>,
    pub(crate) wishes: Bag<Wish>,
    // who holds each mutex's content
    pub(crate) mutexes: IndexMap<MutexKey, Option<ThreadNo>>,
}

impl Place {
    /// Whether it is at rest there.
    pub(crate) fn lies_here(self, here: u8) -> bool
        ensures { result ≡ lies_here here self }
    {
        match self {
            Place::Lies(server) => server == here,
            Place::Flies(_) => false,
        }
    }

    /// Whether it is on its way to there.
    pub(crate) fn flies_here(self, here: u8) -> bool
        ensures { result ≡ flies_here here self }
    {
        match self {
            Place::Lies(_) => false,
            Place::Flies(server) => server == here,
        }
    }

    /// Whether it is at rest at all.
    pub(crate) fn is_placed(self) -> bool
        ensures { result ≡ is_placed self }
    {
        match self {
            Place::Lies(_) => true,
            Place::Flies(_) => false,
        }
    }
}

// What the tables hold of one name. Each call takes constant time and no memory.
impl Tables {
    /// An object that is live.
    pub(crate) fn object(&self, object: &ObjNo) -> Option<Object>
        ensures { (s : Coloured) → Shows ⟦<Wish as PartialEq>⟧.eq self.now s → result ≡ option_map seen (object_at s object.now) }
    {
        match self.objects.get(&object_key(object)) {
            Some(found) => Some(*found),
            None => None,
        }
    }

    /// A thread that was started.
    pub(crate) fn thread(&self, thread: ThreadNo) -> Option<Stand>
        ensures { (s : Coloured) → Shows ⟦<Wish as PartialEq>⟧.eq self.now s → result ≡ option_map stand_of (thread_at s thread) }
    {
        match self.threads.get(&thread.number()) {
            Some(found) => Some(*found),
            None => None,
        }
    }

    /// Who holds the content of a mutex that was made.
    pub(crate) fn mutex(&self, mutex: &MutexNo) -> Option<Option<ThreadNo>>
        ensures { (s : Coloured) → Shows ⟦<Wish as PartialEq>⟧.eq self.now s → result ≡ option_map (λ g. g.holder) (mutex_at s mutex.now) }
    {
        match self.mutexes.get(&mutex_key(mutex)) {
            Some(found) => Some(*found),
            None => None,
        }
    }

    /// Whether the word was ever issued.
    pub(crate) fn is_issued(&self, word: Word) -> bool
        ensures { (s : Coloured) → Shows ⟦<Wish as PartialEq>⟧.eq self.now s → result ≡ is_issued s word }
    {
        self.issued.contains(&word)
    }

    /// Whether a copy is cached there under the word.
    pub(crate) fn is_cached(&self, here: u8, word: Word) -> bool
        ensures { (s : Coloured) → Shows ⟦<Wish as PartialEq>⟧.eq self.now s → result ≡ is_cached s here word }
    {
        self.cached.contains(&(here, word))
    }

    /// Whether it was asked for, and isn't answered.
    #[tactic(auto, using(crate::proofs::Found::has_some))]
    pub(crate) fn is_wished(&self, wish: Wish) -> bool
        ensures { (s : Coloured) → Shows ⟦<Wish as PartialEq>⟧.eq self.now s → result ≡ is_wished s (wish_of wish) }
    {
        self.wishes.count(wish) > 0
    }

    /// Whether a copy of the object was served to there under the word, and hasn't come.
    #[tactic(auto, using(crate::proofs::Shown::is_served))]
    pub(crate) fn is_served(&self, object: &ObjNo, word: Word, here: u8) -> bool
        ensures { (s : Coloured) → Shows ⟦<Wish as PartialEq>⟧.eq self.now s → result ≡ is_some (next_served s object.now word here) }
    {
        self.served.count((object_key(object), word, here)) > 0
    }
}
