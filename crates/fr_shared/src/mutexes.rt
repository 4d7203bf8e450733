//! The mutexes of all threads.

ghost use Rattle.std.specs.Prelude.{◌≡◌, ◌<◌, ◌≤◌, ◌^◌, ◌++◌, ◌∷◌, [], length, true, is_some, Some, None, IsSome, OnOk};
ghost use Rattle.fr_plain.specs.MachineThreads.{mutex_at, mutex_there, with_mutex};
ghost use Rattle.fr_shared.specs.MutexInside.{there_of, key_of};
ghost use Rattle.fr_shared.specs.Shares.{changed, content_at, one_more, emptied, filled, one_less, left_at, can_share};

use crate::places::Places;
use fr_base::{MutexNo, NoMemory, Plain, ThreadNo};
use indexmap::IndexMap;
use std::alloc::Global;
use std::marker::Model;

/// A mutex with a share: its content, where that is in, and how many shares there are.
#[derive(Clone, Copy)]
pub struct Shared {
    pub content: Option<Plain>,
    pub shares: u64,
}

/// The mutexes whose names were given, in this order: each name as one number, and by it what a mutex with a share has. One that is gone keeps
/// its name alone, as no name is given twice. A look-up takes no time in their number.
/// Contracts see them as the plain machine has them, and beside them how many more names fit without memory.
#[derive(Drop)]
pub struct Mutexes {
    places: Places,
    living: IndexMap<u64, Shared>,
    spare: usize,
}

impl Model for Mutexes {
    ghost use Rattle.fr_shared.specs.MutexRoom.{MutexRoom};
    ghost use Rattle.fr_shared.specs.MutexInside.{mutex_view, AreMutexes};

    ghost Value = { MutexRoom };

    ghost view = { mutex_view };

    ghost invariant = { AreMutexes };
}

// The name as one number, as that of a thread with this home and this count is.
fn key(mutex: MutexNo) -> ThreadNo
    ensures number { result ≡ key_of mutex }
    ensures small { mutex.count < 2 ^ 32 }
{
    ThreadNo::new(mutex.home, mutex.count)
}

impl Mutexes {
    /// No name was given yet, and no memory is taken.
    pub fn new(alloc: Global) -> Mutexes
        ensures { result.mutexes ≡ [] }
    {
        Mutexes {
            places: Places::new(alloc),
            living: IndexMap::new(alloc),
            spare: 0,
        }
    }

    /// Makes room for one name more; a refusal changes no mutex.
    pub fn reserve(&mut self) -> Result<(), NoMemory>
        ensures mutexes { self.new.mutexes ≡ self.old.mutexes }
        ensures room { OnOk result (0 < self.new.spare) }
        ensures spare { self.old.spare ≤ self.new.spare }
    {
        self.places.reserve()?;
        match self.living.reserve(1) {
            Ok(()) => {}
            Err(_) => return Err(NoMemory),
        }
        if self.spare == 0 {
            self.spare = 1;
        }
        Ok(())
    }

    /// How many names were given.
    pub fn len(&self) -> usize
        ensures names { result ≡ length self.now.mutexes }
        ensures small { result < 2 ^ 63 }
    {
        self.places.len()
    }

    /// Whether the name was given.
    pub fn is_given(&self, mutex: MutexNo) -> bool
        ensures { result ≡ is_some (mutex_at self.now.mutexes mutex) }
    {
        self.places.at(key(mutex)).is_some()
    }

    /// The mutex of a name, where it has a share.
    pub fn there(&self, mutex: MutexNo) -> Option<Shared>
        ensures { there_of result ≡ mutex_there self.now.mutexes mutex }
    {
        // The check asks that each type inside a mutex is named where it is moved.
        let _inside: Option<Plain> = None;
        match self.living.get(&key(mutex).number()) {
            Some(there) => Some(*there),
            None => None,
        }
    }

    /// Gives a new name to a mutex with this content and one share.
    pub fn add(&mut self, mutex: MutexNo, content: Plain)
        requires new { mutex_at self.old.mutexes mutex ≡ None }
        requires room { 0 < self.old.spare }
        ensures mutexes { self.new.mutexes ≡ self.old.mutexes ++ record { number = mutex; there = Some (record { content = Some content; shares = 1 }) } ∷ [] }
    {
        let _inside: Option<Plain> = None;
        self.spare -= 1;
        let name = key(mutex);
        self.places.add(name);
        let there = Shared {
            content: Some(content),
            shares: 1,
        };
        match self.living.insert(name.number(), there) {
            Ok(_) => {}
            Err(_) => unreachable!(),
        }
    }

    // Another state of a mutex that has a share.
    fn set(&mut self, mutex: MutexNo, there: Shared)
        requires lives { IsSome (mutex_there self.old.mutexes mutex) }
        ensures mutexes { self.new.mutexes ≡ with_mutex self.old.mutexes mutex (there_of (Some there)) }
        ensures spare { self.new.spare ≡ self.old.spare }
    {
        let _inside: Option<Plain> = None;
        match self.living.get_mut(&key(mutex).number()) {
            Some(found) => *found = there,
            None => unreachable!(),
        }
    }

    // The last share of a mutex goes.
    fn remove(&mut self, mutex: MutexNo)
        ensures mutexes { self.new.mutexes ≡ with_mutex self.old.mutexes mutex None }
        ensures spare { self.new.spare ≡ self.old.spare }
    {
        let _inside: Option<Plain> = None;
        self.living.swap_remove(&key(mutex).number());
    }

    /// Whether a share more can be counted: not where there are 2^64 - 1.
    pub fn can_share(&self, mutex: MutexNo) -> bool
        ensures { result ≡ can_share self.now.mutexes mutex }
    {
        match self.there(mutex) {
            Some(there) => there.shares < u64::MAX,
            None => true,
        }
    }

    /// One share more of a mutex that has one.
    pub fn share(&mut self, mutex: MutexNo)
        requires few { can_share self.old.mutexes mutex ≡ true }
        ensures mutexes { self.new.mutexes ≡ changed self.old.mutexes mutex one_more }
        ensures spare { self.new.spare ≡ self.old.spare }
    {
        let Some(there) = self.there(mutex) else {
            return;
        };
        self.set(
            mutex,
            Shared {
                content: there.content,
                shares: there.shares + 1,
            },
        );
    }

    /// Takes the content out, where it is in.
    pub fn take_content(&mut self, mutex: MutexNo) -> Option<Plain>
        ensures content { result ≡ content_at self.old.mutexes mutex }
        ensures mutexes { self.new.mutexes ≡ changed self.old.mutexes mutex emptied }
        ensures spare { self.new.spare ≡ self.old.spare }
    {
        let Some(there) = self.there(mutex) else {
            return None;
        };
        self.set(
            mutex,
            Shared {
                content: None,
                shares: there.shares,
            },
        );
        there.content
    }

    /// Puts a content into a mutex that has a share.
    pub fn give_back(&mut self, mutex: MutexNo, content: Plain)
        ensures mutexes { self.new.mutexes ≡ changed self.old.mutexes mutex (filled content) }
        ensures spare { self.new.spare ≡ self.old.spare }
    {
        let Some(there) = self.there(mutex) else {
            return;
        };
        self.set(
            mutex,
            Shared {
                content: Some(content),
                shares: there.shares,
            },
        );
    }

    /// One share less; with the last one the mutex goes. Gives the content that goes with it, where that is in.
    pub fn drop_share(&mut self, mutex: MutexNo) -> Option<Plain>
        ensures content { result ≡ left_at self.old.mutexes mutex }
        ensures mutexes { self.new.mutexes ≡ changed self.old.mutexes mutex one_less }
        ensures spare { self.new.spare ≡ self.old.spare }
    {
        let Some(there) = self.there(mutex) else {
            return None;
        };
        if there.shares < 2 {
            self.remove(mutex);
            return there.content;
        }
        self.set(
            mutex,
            Shared {
                content: there.content,
                shares: there.shares - 1,
            },
        );
        None
    }
}
