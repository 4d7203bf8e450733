//! Which acts the rules allow, asked of tables.

ghost use Rattle.std.specs.Prelude.{◌≡◌, ◌+◌, ◌==◌, ◌&&◌, ◌<◌, not, is_some, is_none};
ghost use Rattle.fr_base.specs.Names.{home_of};
ghost use Rattle.global_addr.specs.Words.{colour_of, server_of, next_word};
ghost use Rattle.coloured_heap.specs.Lists.{holds};
ghost use Rattle.coloured_heap.specs.Heap.{Coloured, ForCopy, ForObject, ForContent, ForShare, ForResult, object_at, thread_at, is_wished};
ghost use Rattle.coloured_heap.specs.Rules.{issued_by, is_new, names, is_here, lies, comes_here, is_left, is_kept, of_run, is_by, is_over, is_in, is_held, is_known, starting_server, rule, allows};
ghost use Rattle.coloured_heap.specs.Tables.{Shows};

use crate::keys::{Wish, mutex_key, object_key};
use crate::tables::Tables;
use fr_base::{MutexNo, ObjNo, Options, Released, ThreadNo};
use global_addr::Word;
use journal::{Act, Entry};

/// The word that an act issues.
pub(crate) fn issued_by(act: &Act) -> Option<Word>
    ensures { result ≡ issued_by act.now }
{
    match act {
        Act::Make(_, word) => Some(*word),
        Act::Take(_, _, word) => Some(*word),
        Act::Tint(_, _, word) => Some(*word),
        Act::Renew(_, _, word) => Some(*word),
        _ => None,
    }
}

// Whether the entry is of that thread.
fn is_by(entry: &Entry, thread: ThreadNo) -> bool
    ensures { result ≡ is_by entry.now thread }
{
    match entry.thread {
        Some(own) => own == thread,
        None => false,
    }
}

/// How far apart the words of two colours that follow each other are: colours stand above the 48 bits of server and address.
const COLOUR_STEP: u128 = 1 << 48;

// Whether the word is the other one with the next colour.
fn is_next(word: Word, next: Word) -> bool
    ensures { result ≡ (next == next_word word) }
{
    u128::from(next.number()) == u128::from(word.number()) + COLOUR_STEP
}

// Whether the word has the last colour.
fn is_at_last(options: &Options, word: Word) -> bool
    ensures { result ≡ (colour_of word + 1 == options.now.colours) }
{
    u32::from(word.colour()) + 1 == options.colours
}

// Where a thread starts.
fn starts_at(options: &Options, thread: ThreadNo, there: u8) -> bool
    requires servers { 0 < options.now.servers }
    ensures { result ≡ (there == starting_server options.now thread) }
{
    let place = u64::from(thread.server()) + u64::from(thread.count());
    u64::from(there) == place % u64::from(options.servers)
}

// What the rules ask of the names that an act has.
impl Tables {
    // Whether that is the object's word, and its pointer wasn't given up.
    fn names(&self, object: &ObjNo, word: Word) -> bool
        ensures { (s : Coloured) → Shows ⟦<Wish as PartialEq>⟧.eq self.now s → result ≡ names s object.now word }
    {
        match self.object(object) {
            Some(found) => found.word == word && !found.is_condemned,
            None => false,
        }
    }

    // Whether the object lies at the entry's server.
    fn is_here(&self, entry: &Entry, object: &ObjNo) -> bool
        ensures { (s : Coloured) → Shows ⟦<Wish as PartialEq>⟧.eq self.now s → result ≡ is_here entry.now s object.now }
    {
        match self.object(object) {
            Some(found) => found.place.lies_here(entry.server),
            None => false,
        }
    }

    // Whether the object lies at some server.
    fn lies(&self, object: &ObjNo) -> bool
        ensures { (s : Coloured) → Shows ⟦<Wish as PartialEq>⟧.eq self.now s → result ≡ lies s object.now }
    {
        match self.object(object) {
            Some(found) => found.place.is_placed(),
            None => false,
        }
    }

    // Whether the object is on its way to the entry's server.
    fn comes_here(&self, entry: &Entry, object: &ObjNo) -> bool
        ensures { (s : Coloured) → Shows ⟦<Wish as PartialEq>⟧.eq self.now s → result ≡ comes_here entry.now s object.now }
    {
        match self.object(object) {
            Some(found) => found.place.flies_here(entry.server),
            None => false,
        }
    }

    // Whether the object is live, and its pointer wasn't given up.
    fn is_kept(&self, object: &ObjNo) -> bool
        ensures { (s : Coloured) → Shows ⟦<Wish as PartialEq>⟧.eq self.now s → result ≡ is_kept s object.now }
    {
        match self.object(object) {
            Some(found) => !found.is_condemned,
            None => false,
        }
    }

    // Whether the object lies at the entry's server under that word, and its pointer was given up.
    fn is_left(&self, entry: &Entry, object: &ObjNo, word: Word) -> bool
        ensures { (s : Coloured) → Shows ⟦<Wish as PartialEq>⟧.eq self.now s → result ≡ is_left entry.now s object.now word }
    {
        match self.object(object) {
            Some(found) => {
                found.word == word && found.is_condemned && found.place.lies_here(entry.server)
            }
            None => false,
        }
    }

    // Whether the thread was started and has finished.
    fn is_over(&self, thread: ThreadNo) -> bool
        ensures { (s : Coloured) → Shows ⟦<Wish as PartialEq>⟧.eq self.now s → result ≡ is_over s thread }
    {
        match self.thread(thread) {
            Some(found) => found.has_ended,
            None => false,
        }
    }

    // Whether the mutex was made and its content is in.
    fn is_in(&self, mutex: &MutexNo) -> bool
        ensures { (s : Coloured) → Shows ⟦<Wish as PartialEq>⟧.eq self.now s → result ≡ is_in s mutex.now }
    {
        match self.mutex(mutex) {
            Some(holder) => holder.is_none(),
            None => false,
        }
    }

    // Whether the mutex's content was granted to the entry's thread.
    fn is_held(&self, entry: &Entry, mutex: &MutexNo) -> bool
        ensures { (s : Coloured) → Shows ⟦<Wish as PartialEq>⟧.eq self.now s → result ≡ is_held entry.now s mutex.now }
    {
        match self.mutex(mutex) {
            Some(Some(holder)) => is_by(entry, holder),
            Some(None) => false,
            None => false,
        }
    }

    // Whether the mutex was made, or the thread was started.
    fn is_known(&self, released: &Released) -> bool
        ensures { (s : Coloured) → Shows ⟦<Wish as PartialEq>⟧.eq self.now s → result ≡ is_known s released.now }
    {
        match released {
            Released::Mutex(mutex) => self.mutex(mutex).is_some(),
            Released::Task(thread) => self.thread(*thread).is_some(),
        }
    }

    // Whether the word may be issued, where one is: it is of the run's colours, and was never issued.
    fn is_new(&self, options: &Options, word: Option<Word>) -> bool
        ensures { (s : Coloured) → Shows ⟦<Wish as PartialEq>⟧.eq self.now s → result ≡ is_new options.now s word }
    {
        match word {
            Some(word) => u32::from(word.colour()) < options.colours && !self.is_issued(word),
            None => true,
        }
    }

    // Whether the server asked for a copy of the object under the word.
    fn asks_for_copy(&self, object: &ObjNo, word: Word, there: u8) -> bool
        ensures { (s : Coloured) → Shows ⟦<Wish as PartialEq>⟧.eq self.now s → result ≡ is_wished s (ForCopy object.now word there) }
    {
        self.is_wished(Wish::Copy(object_key(object), word, there))
    }

    // Whether the server asked for the object under the word.
    fn asks_for_object(&self, object: &ObjNo, word: Word, there: u8) -> bool
        ensures { (s : Coloured) → Shows ⟦<Wish as PartialEq>⟧.eq self.now s → result ≡ is_wished s (ForObject object.now word there) }
    {
        self.is_wished(Wish::Object(object_key(object), word, there))
    }

    // Whether the thread at that server asked for the mutex's content.
    fn asks_for_content(&self, mutex: &MutexNo, thread: ThreadNo, there: u8) -> bool
        ensures { (s : Coloured) → Shows ⟦<Wish as PartialEq>⟧.eq self.now s → result ≡ is_wished s (ForContent mutex.now thread there) }
    {
        self.is_wished(Wish::Content(mutex_key(mutex), thread.number(), there))
    }

    // Whether the thread at that server asked for a share of the mutex.
    fn asks_for_share(&self, mutex: &MutexNo, thread: ThreadNo, there: u8) -> bool
        ensures { (s : Coloured) → Shows ⟦<Wish as PartialEq>⟧.eq self.now s → result ≡ is_wished s (ForShare mutex.now thread there) }
    {
        self.is_wished(Wish::Share(mutex_key(mutex), thread.number(), there))
    }

    // Whether the thread at that server asked for the other thread's result.
    fn asks_for_result(&self, thread: ThreadNo, asker: ThreadNo, there: u8) -> bool
        ensures { (s : Coloured) → Shows ⟦<Wish as PartialEq>⟧.eq self.now s → result ≡ is_wished s (ForResult thread asker there) }
    {
        self.is_wished(Wish::Result(thread.number(), asker.number(), there))
    }

    // Whether that is the word of the object, which lies at the entry's server.
    fn names_here(&self, entry: &Entry, object: &ObjNo, word: Word) -> bool
        ensures { (s : Coloured) → Shows ⟦<Wish as PartialEq>⟧.eq self.now s → result ≡ (names s object.now word && is_here entry.now s object.now) }
    {
        self.names(object, word) && self.is_here(entry, object)
    }

    // Whether that is the word of the object, which doesn't lie at the entry's server.
    fn names_away(&self, entry: &Entry, object: &ObjNo, word: Word) -> bool
        ensures { (s : Coloured) → Shows ⟦<Wish as PartialEq>⟧.eq self.now s → result ≡ (names s object.now word && not (is_here entry.now s object.now)) }
    {
        self.names(object, word) && !self.is_here(entry, object)
    }

    // Whether a new object may be made under the word.
    fn can_make(&self, entry: &Entry, object: &ObjNo, word: Word) -> bool
        ensures { (s : Coloured) → Shows ⟦<Wish as PartialEq>⟧.eq self.now s → result ≡ (is_none (object_at s object.now) && is_by entry.now object.now.thread && (server_of word == entry.now.server)) }
    {
        self.object(object).is_none()
            && is_by(entry, object.thread)
            && word.server() == entry.server
    }

    // Whether a copy may be served.
    fn can_serve(&self, entry: &Entry, object: &ObjNo, word: Word, there: u8) -> bool
        ensures { (s : Coloured) → Shows ⟦<Wish as PartialEq>⟧.eq self.now s → result ≡ (names s object.now word && is_here entry.now s object.now && is_wished s (ForCopy object.now word there)) }
    {
        self.names(object, word)
            && self.is_here(entry, object)
            && self.asks_for_copy(object, word, there)
    }

    // Whether the object may leave.
    fn can_give(&self, entry: &Entry, object: &ObjNo, word: Word, there: u8) -> bool
        ensures { (s : Coloured) → Shows ⟦<Wish as PartialEq>⟧.eq self.now s → result ≡ (names s object.now word && is_here entry.now s object.now && is_wished s (ForObject object.now word there)) }
    {
        self.names(object, word)
            && self.is_here(entry, object)
            && self.asks_for_object(object, word, there)
    }

    // Whether a share of the mutex may be sent.
    fn can_dup(&self, entry: &Entry, mutex: &MutexNo, thread: ThreadNo, there: u8) -> bool
        ensures { (s : Coloured) → Shows ⟦<Wish as PartialEq>⟧.eq self.now s → result ≡ ((mutex.now.home == entry.now.server) && is_wished s (ForShare mutex.now thread there)) }
    {
        mutex.home == entry.server && self.asks_for_share(mutex, thread, there)
    }

    // Whether the object that flies here may be taken under a new word.
    fn can_take(&self, entry: &Entry, object: &ObjNo, old: Word, new: Word) -> bool
        ensures { (s : Coloured) → Shows ⟦<Wish as PartialEq>⟧.eq self.now s → result ≡ (names s object.now old && comes_here entry.now s object.now && (server_of new == entry.now.server)) }
    {
        self.names(object, old) && self.comes_here(entry, object) && new.server() == entry.server
    }

    // Whether the object's word may get the next colour.
    fn can_tint(&self, object: &ObjNo, old: Word, new: Word) -> bool
        ensures { (s : Coloured) → Shows ⟦<Wish as PartialEq>⟧.eq self.now s → result ≡ (names s object.now old && lies s object.now && (new == next_word old)) }
    {
        self.names(object, old) && self.lies(object) && is_next(old, new)
    }

    // Whether the thread may start there.
    fn can_start(&self, options: &Options, entry: &Entry, thread: ThreadNo, there: u8) -> bool
        requires servers { 0 < options.now.servers }
        ensures { (s : Coloured) → Shows ⟦<Wish as PartialEq>⟧.eq self.now s → result ≡ (is_some entry.now.thread && (home_of thread == entry.now.server) && is_none (thread_at s thread) && (there == starting_server options.now thread)) }
    {
        entry.thread.is_some()
            && thread.server() == entry.server
            && self.thread(thread).is_none()
            && starts_at(options, thread, there)
    }

    // Whether the mutex's content may be granted.
    fn can_grant(&self, entry: &Entry, mutex: &MutexNo, thread: ThreadNo, there: u8) -> bool
        ensures { (s : Coloured) → Shows ⟦<Wish as PartialEq>⟧.eq self.now s → result ≡ ((mutex.now.home == entry.now.server) && is_in s mutex.now && is_wished s (ForContent mutex.now thread there)) }
    {
        mutex.home == entry.server
            && self.is_in(mutex)
            && self.asks_for_content(mutex, thread, there)
    }

    // Whether the thread's result may be sent.
    fn can_answer(&self, entry: &Entry, thread: ThreadNo, asker: ThreadNo, there: u8) -> bool
        ensures { (s : Coloured) → Shows ⟦<Wish as PartialEq>⟧.eq self.now s → result ≡ ((home_of thread == entry.now.server) && is_over s thread && is_wished s (ForResult thread asker there)) }
    {
        thread.server() == entry.server
            && self.is_over(thread)
            && self.asks_for_result(thread, asker, there)
    }

    // Whether the act meets its rule.
    fn rule(&self, options: &Options, entry: &Entry, act: &Act) -> bool
        requires servers { 0 < options.now.servers }
        ensures { (s : Coloured) → Shows ⟦<Wish as PartialEq>⟧.eq self.now s → result ≡ rule options.now entry.now s act.now }
    {
        let here = entry.server;
        match act {
            Act::Make(object, word) => self.can_make(entry, object, *word),
            Act::Local(object, word) => self.names_here(entry, object, *word),
            Act::Hit(object, word) => self.names(object, *word) && self.is_cached(here, *word),
            Act::Ask(object, word) => {
                self.names_away(entry, object, *word) && !self.is_cached(here, *word)
            }
            Act::Serve(object, word, there) => self.can_serve(entry, object, *word, *there),
            Act::Fill(object, word) => self.is_kept(object) && self.is_served(object, *word, here),
            Act::Pull(object, word) => self.names_away(entry, object, *word),
            Act::Give(object, word, there) => self.can_give(entry, object, *word, *there),
            Act::Take(object, old, new) => self.can_take(entry, object, *old, *new),
            Act::Tint(object, old, new) => self.can_tint(object, *old, *new),
            Act::Renew(object, old, new) => {
                self.names_here(entry, object, *old)
                    && is_at_last(options, *old)
                    && new.server() == here
            }
            Act::Condemn(object, word) => self.names(object, *word),
            Act::Free(object, word) => self.is_left(entry, object, *word),
            Act::Evict(word) => self.is_cached(here, *word),
            Act::AskLock(mutex) => entry.thread.is_some() && self.mutex(mutex).is_some(),
            Act::Grant(mutex, thread, there) => self.can_grant(entry, mutex, *thread, *there),
            Act::GiveBack(mutex) => self.is_held(entry, mutex),
            Act::AskDup(mutex) => entry.thread.is_some() && self.mutex(mutex).is_some(),
            Act::Dupped(mutex, thread, there) => self.can_dup(entry, mutex, *thread, *there),
            Act::LetGo(released) => self.is_known(released),
            Act::Start(thread, there) => self.can_start(options, entry, *thread, *there),
            Act::AskJoin(thread) => entry.thread.is_some() && self.thread(*thread).is_some(),
            Act::Answer(thread, asker, there) => self.can_answer(entry, *thread, *asker, *there),
            Act::Finish(thread) => {
                is_by(entry, *thread) && thread.number() != 0 && !self.is_over(*thread)
            }
            Act::Depart(thread, there) => {
                is_by(entry, *thread) && *there < options.servers && *there != here
            }
        }
    }

    /// Whether the act is allowed: it meets its rule, and the word that it issues is new.
    pub(crate) fn allows(&self, options: &Options, entry: &Entry, act: &Act) -> bool
        requires servers { 0 < options.now.servers }
        ensures { (s : Coloured) → Shows ⟦<Wish as PartialEq>⟧.eq self.now s → result ≡ allows options.now entry.now s act.now }
    {
        self.is_new(options, issued_by(act)) && self.rule(options, entry, act)
    }
}
