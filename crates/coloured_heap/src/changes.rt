//! What acts change of tables.

ghost use Rattle.std.specs.Prelude.{◌≡◌, ◌∷◌, Option, Some, None, ℕ, OnOk, false};
ghost use Rattle.fr_base.specs.declared.label.Plain.{Plain};
ghost use Rattle.coloured_heap.specs.Lists.{less_all};
ghost use Rattle.coloured_heap.specs.Heap.{Coloured, Living, Running, Lies, ForCopy, ForObject, ForContent, ForShare, is_object, is_under};
ghost use Rattle.coloured_heap.specs.Changes.{after_act, answering, asker_of, change, change_thread, changed_by, filling, serving, wishing, with_holder, with_new, with_object};
ghost use Rattle.coloured_heap.specs.Tables.{Shows, changed_living, changed_running, seen, stand_of, takes_memory, wish_of};
ghost use Rattle.coloured_heap.specs.declared.changes.ObjectChange.TheVariants.{Leaves};

use crate::keys::{Wish, mutex_key, object_key};
use crate::rules::issued_by;
use crate::tables::{Object, Place, Stand, Tables};
use fr_base::{MutexNo, NoMemory, ObjNo, ThreadNo};
use global_addr::Word;
use journal::{Act, Entry};

/// What an act changes of an object: it leaves for a server, it comes to a server under a new word, its word is another one, or its
/// pointer is given up.
#[derive(Clone, Copy)]
pub(crate) enum ObjectChange {
    Leaves(u8),
    Comes(u8, Word),
    Recoloured(Word),
    GivenUp,
}

/// What an act changes of a thread: it has finished, or it goes to a server.
#[derive(Clone, Copy)]
pub(crate) enum ThreadChange {
    Finished,
    Goes(u8),
}

// The number of the entry's thread; who asks is a thread.
fn asker(entry: &Entry) -> u64
    ensures { result ≡ asker_of entry.now.thread }
{
    match entry.thread {
        Some(thread) => thread.number(),
        None => 0,
    }
}

impl Object {
    fn changed(self, change: ObjectChange) -> Object
        ensures { (x : Living) → seen x ≡ self → seen (changed_living change x) ≡ result }
    {
        let Object {
            place,
            word,
            is_condemned,
        } = self;
        match change {
            ObjectChange::Leaves(there) => Object {
                place: Place::Flies(there),
                word,
                is_condemned,
            },
            ObjectChange::Comes(here, word) => Object {
                place: Place::Lies(here),
                word,
                is_condemned,
            },
            ObjectChange::Recoloured(word) => Object {
                place,
                word,
                is_condemned,
            },
            ObjectChange::GivenUp => Object {
                place,
                word,
                is_condemned: true,
            },
        }
    }
}

impl Stand {
    fn changed(self, change: ThreadChange) -> Stand
        ensures { (r : Running) → stand_of r ≡ self → stand_of (changed_running change r) ≡ result }
    {
        match change {
            ThreadChange::Finished => Stand {
                server: self.server,
                has_ended: true,
            },
            ThreadChange::Goes(there) => Stand {
                server: there,
                has_ended: self.has_ended,
            },
        }
    }
}

// Each call changes what is held of one name, in constant time on average. What takes memory is refused for that alone.
impl Tables {
    // A new object lies there.
    fn add_object(&mut self, here: u8, object: &ObjNo, word: Word) -> Result<(), NoMemory>
        ensures { OnOk result ((s : Coloured) (v : Plain) → Shows ⟦<Wish as PartialEq>⟧.eq self.old s → Shows ⟦<Wish as PartialEq>⟧.eq self.new (with_object s (record { object = object.now; place = Lies here; word = word; value = v; is_condemned = false }))) }
    {
        let made = Object {
            place: Place::Lies(here),
            word,
            is_condemned: false,
        };
        match self.objects.insert(object_key(object), made) {
            Ok(_) => Ok(()),
            Err(_) => Err(NoMemory),
        }
    }

    // An object is changed, where it is live.
    fn change_object(&mut self, object: &ObjNo, by: ObjectChange)
        ensures { (s : Coloured) → Shows ⟦<Wish as PartialEq>⟧.eq self.old s → Shows ⟦<Wish as PartialEq>⟧.eq self.new (change s object.now (changed_living by)) }
    {
        if let Some(found) = self.objects.get_mut(&object_key(object)) {
            *found = found.changed(by);
        }
    }

    // An object is gone.
    fn remove_object(&mut self, object: &ObjNo)
        ensures { (s : Coloured) → Shows ⟦<Wish as PartialEq>⟧.eq self.old s → Shows ⟦<Wish as PartialEq>⟧.eq self.new (record s { living = less_all (is_object object.now) s.living }) }
    {
        self.objects.swap_remove(&object_key(object));
    }

    // A copy leaves the cache.
    fn evict(&mut self, here: u8, word: Word)
        ensures { (s : Coloured) → Shows ⟦<Wish as PartialEq>⟧.eq self.old s → Shows ⟦<Wish as PartialEq>⟧.eq self.new (record s { cached = less_all (is_under here word) s.cached }) }
    {
        self.cached.swap_remove(&(here, word));
    }

    // Something is asked for.
    fn wish(&mut self, wish: Wish) -> Result<(), NoMemory>
        ensures { OnOk result ((s : Coloured) → Shows ⟦<Wish as PartialEq>⟧.eq self.old s → Shows ⟦<Wish as PartialEq>⟧.eq self.new (wishing s (wish_of wish))) }
    {
        self.wishes.add(wish)?;
        Ok(())
    }

    // What was asked for is answered.
    fn answer(&mut self, wish: Wish)
        ensures { (s : Coloured) → Shows ⟦<Wish as PartialEq>⟧.eq self.old s → Shows ⟦<Wish as PartialEq>⟧.eq self.new (answering s (wish_of wish)) }
    {
        self.wishes.take(wish);
    }

    // A copy is under way.
    fn serve(&mut self, object: &ObjNo, word: Word, there: u8) -> Result<(), NoMemory>
        ensures { OnOk result ((s : Coloured) → Shows ⟦<Wish as PartialEq>⟧.eq self.old s → Shows ⟦<Wish as PartialEq>⟧.eq self.new (serving s object.now word there)) }
    {
        self.served.add((object_key(object), word, there))?;
        Ok(())
    }

    // A copy that is under way comes to the cache.
    fn fill(&mut self, object: &ObjNo, word: Word, here: u8) -> Result<(), NoMemory>
        ensures { OnOk result ((s : Coloured) → Shows ⟦<Wish as PartialEq>⟧.eq self.old s → Shows ⟦<Wish as PartialEq>⟧.eq self.new (filling s object.now word here)) }
    {
        if !self.is_served(object, word, here) {
            return Ok(());
        }
        match self.cached.insert((here, word)) {
            Ok(_) => {}
            Err(_) => return Err(NoMemory),
        }
        self.served.take((object_key(object), word, here));
        Ok(())
    }

    // A mutex's content is granted, or is in again.
    fn set_holder(&mut self, mutex: &MutexNo, holder: Option<ThreadNo>)
        ensures { (s : Coloured) → Shows ⟦<Wish as PartialEq>⟧.eq self.old s → Shows ⟦<Wish as PartialEq>⟧.eq self.new (with_holder s mutex.now holder) }
    {
        if let Some(found) = self.mutexes.get_mut(&mutex_key(mutex)) {
            *found = holder;
        }
    }

    // A thread starts.
    fn start(&mut self, thread: ThreadNo, there: u8) -> Result<(), NoMemory>
        ensures { OnOk result ((s : Coloured) → Shows ⟦<Wish as PartialEq>⟧.eq self.old s → Shows ⟦<Wish as PartialEq>⟧.eq self.new (record s { threads = record { thread = thread; server = there; has_ended = false } ∷ s.threads })) }
    {
        let stand = Stand {
            server: there,
            has_ended: false,
        };
        match self.threads.insert(thread.number(), stand) {
            Ok(_) => Ok(()),
            Err(_) => Err(NoMemory),
        }
    }

    // A thread is changed, where it was started.
    fn change_thread(&mut self, thread: ThreadNo, by: ThreadChange)
        ensures { (s : Coloured) → Shows ⟦<Wish as PartialEq>⟧.eq self.old s → Shows ⟦<Wish as PartialEq>⟧.eq self.new (change_thread s thread (changed_running by)) }
    {
        if let Some(found) = self.threads.get_mut(&thread.number()) {
            *found = found.changed(by);
        }
    }

    // A word is issued, where the act issues one.
    fn issue(&mut self, word: Option<Word>) -> Result<(), NoMemory>
        ensures { OnOk result ((s : Coloured) → Shows ⟦<Wish as PartialEq>⟧.eq self.old s → Shows ⟦<Wish as PartialEq>⟧.eq self.new (record s { issued = with_new word s.issued })) }
    {
        match word {
            Some(word) => match self.issued.insert(word) {
                Ok(_) => Ok(()),
                Err(_) => Err(NoMemory),
            },
            None => Ok(()),
        }
    }

    /// A new mutex, with its content in.
    pub(crate) fn add_mutex(&mut self, mutex: &MutexNo) -> Result<(), NoMemory>
        ensures { OnOk result ((s : Coloured) → Shows ⟦<Wish as PartialEq>⟧.eq self.old s → Shows ⟦<Wish as PartialEq>⟧.eq self.new (record s { mutexes = record { mutex = mutex.now; holder = None } ∷ s.mutexes })) }
    {
        match self.mutexes.insert(mutex_key(mutex), None) {
            Ok(_) => Ok(()),
            Err(_) => Err(NoMemory),
        }
    }
}

// What each act changes.
impl Tables {
    // A copy that was asked for is under way.
    fn send_copy(&mut self, object: &ObjNo, word: Word, there: u8) -> Result<(), NoMemory>
        ensures { OnOk result ((s : Coloured) → Shows ⟦<Wish as PartialEq>⟧.eq self.old s → Shows ⟦<Wish as PartialEq>⟧.eq self.new (serving (answering s (ForCopy object.now word there)) object.now word there)) }
    {
        self.answer(Wish::Copy(object_key(object), word, there));
        self.serve(object, word, there)
    }

    // An object that was asked for leaves.
    fn send_object(&mut self, object: &ObjNo, word: Word, there: u8)
        ensures { (s : Coloured) → Shows ⟦<Wish as PartialEq>⟧.eq self.old s → Shows ⟦<Wish as PartialEq>⟧.eq self.new (change (answering s (ForObject object.now word there)) object.now (changed_living (Leaves there))) }
    {
        self.answer(Wish::Object(object_key(object), word, there));
        self.change_object(object, ObjectChange::Leaves(there));
    }

    // A mutex's content that was asked for is granted.
    fn grant(&mut self, mutex: &MutexNo, thread: ThreadNo, there: u8)
        ensures { (s : Coloured) → Shows ⟦<Wish as PartialEq>⟧.eq self.old s → Shows ⟦<Wish as PartialEq>⟧.eq self.new (with_holder (answering s (ForContent mutex.now thread there)) mutex.now (Some thread)) }
    {
        self.answer(Wish::Content(mutex_key(mutex), thread.number(), there));
        self.set_holder(mutex, Some(thread));
    }

    // The entry's thread asks for a mutex's content.
    fn ask_lock(&mut self, entry: &Entry, mutex: &MutexNo) -> Result<(), NoMemory>
        ensures { OnOk result ((s : Coloured) → Shows ⟦<Wish as PartialEq>⟧.eq self.old s → Shows ⟦<Wish as PartialEq>⟧.eq self.new (wishing s (ForContent mutex.now (asker_of entry.now.thread) entry.now.server))) }
    {
        self.wish(Wish::Content(mutex_key(mutex), asker(entry), entry.server))
    }

    // The entry's thread asks for a share of a mutex.
    fn ask_dup(&mut self, entry: &Entry, mutex: &MutexNo) -> Result<(), NoMemory>
        ensures { OnOk result ((s : Coloured) → Shows ⟦<Wish as PartialEq>⟧.eq self.old s → Shows ⟦<Wish as PartialEq>⟧.eq self.new (wishing s (ForShare mutex.now (asker_of entry.now.thread) entry.now.server))) }
    {
        self.wish(Wish::Share(mutex_key(mutex), asker(entry), entry.server))
    }

    // A server asks for a copy of an object.
    fn ask_copy(&mut self, object: &ObjNo, word: Word, here: u8) -> Result<(), NoMemory>
        ensures { OnOk result ((s : Coloured) → Shows ⟦<Wish as PartialEq>⟧.eq self.old s → Shows ⟦<Wish as PartialEq>⟧.eq self.new (wishing s (ForCopy object.now word here))) }
    {
        self.wish(Wish::Copy(object_key(object), word, here))
    }

    // A server asks for an object.
    fn ask_object(&mut self, object: &ObjNo, word: Word, here: u8) -> Result<(), NoMemory>
        ensures { OnOk result ((s : Coloured) → Shows ⟦<Wish as PartialEq>⟧.eq self.old s → Shows ⟦<Wish as PartialEq>⟧.eq self.new (wishing s (ForObject object.now word here))) }
    {
        self.wish(Wish::Object(object_key(object), word, here))
    }

    // A share of a mutex that was asked for is sent.
    fn send_share(&mut self, mutex: &MutexNo, thread: ThreadNo, there: u8)
        ensures { (s : Coloured) → Shows ⟦<Wish as PartialEq>⟧.eq self.old s → Shows ⟦<Wish as PartialEq>⟧.eq self.new (answering s (ForShare mutex.now thread there)) }
    {
        self.answer(Wish::Share(mutex_key(mutex), thread.number(), there));
    }

    // What an act changes that takes no memory.
    fn change_there(&mut self, entry: &Entry, act: &Act)
        ensures { takes_memory act.now ≡ false → (s : Coloured) → Shows ⟦<Wish as PartialEq>⟧.eq self.old s → Shows ⟦<Wish as PartialEq>⟧.eq self.new (changed_by entry.now s act.now) }
    {
        let here = entry.server;
        match act {
            Act::Give(object, word, there) => self.send_object(object, *word, *there),
            Act::Take(object, _, new) => self.change_object(
                object,
                ObjectChange::Comes(here, *new),
            ),
            Act::Tint(object, _, new) => self.change_object(object, ObjectChange::Recoloured(*new)),
            Act::Renew(object, _, new) => {
                self.change_object(object, ObjectChange::Recoloured(*new))
            }
            Act::Condemn(object, _) => self.change_object(object, ObjectChange::GivenUp),
            Act::Free(object, _) => self.remove_object(object),
            Act::Evict(word) => self.evict(here, *word),
            Act::Grant(mutex, thread, there) => self.grant(mutex, *thread, *there),
            Act::GiveBack(mutex) => self.set_holder(mutex, None),
            Act::Dupped(mutex, thread, there) => self.send_share(mutex, *thread, *there),
            Act::Answer(thread, asker, there) => {
                self.answer(Wish::Result(thread.number(), asker.number(), *there))
            }
            Act::Finish(thread) => self.change_thread(*thread, ThreadChange::Finished),
            Act::Depart(thread, there) => self.change_thread(*thread, ThreadChange::Goes(*there)),
            _ => {}
        }
    }

    // What an act changes beside the words that were issued.
    fn change(&mut self, entry: &Entry, act: &Act) -> Result<(), NoMemory>
        ensures { OnOk result ((s : Coloured) → Shows ⟦<Wish as PartialEq>⟧.eq self.old s → Shows ⟦<Wish as PartialEq>⟧.eq self.new (changed_by entry.now s act.now)) }
    {
        let here = entry.server;
        match act {
            Act::Make(object, word) => self.add_object(here, object, *word),
            Act::Ask(object, word) => self.ask_copy(object, *word, here),
            Act::Serve(object, word, there) => self.send_copy(object, *word, *there),
            Act::Fill(object, word) => self.fill(object, *word, here),
            Act::Pull(object, word) => self.ask_object(object, *word, here),
            Act::AskLock(mutex) => self.ask_lock(entry, mutex),
            Act::AskDup(mutex) => self.ask_dup(entry, mutex),
            Act::Start(thread, there) => self.start(*thread, *there),
            Act::AskJoin(thread) => { self.wish(Wish::Result(thread.number(), asker(entry), here)) }
            _ => {
                self.change_there(entry, act);
                Ok(())
            }
        }
    }

    /// Takes an act, whatever its rule says.
    pub(crate) fn take(&mut self, entry: &Entry, act: &Act) -> Result<(), NoMemory>
        ensures { OnOk result ((s : Coloured) → Shows ⟦<Wish as PartialEq>⟧.eq self.old s → Shows ⟦<Wish as PartialEq>⟧.eq self.new (after_act entry.now s act.now)) }
    {
        self.change(entry, act)?;
        self.issue(issued_by(act))
    }
}
