//! The mutexes whose home a server is.

ghost use Rattle.std.specs.Prelude.{◌≡◌, ◌+◌, ◌<◌, ◌≤◌, [], true, Some, IsSome, IsOk, OnOk, OnErr};
ghost use Rattle.mutex_home.specs.Mutexes.{mutex_in, next_mutex, can_make, make, ask, give_back, more, less};

use crate::answers::{Asked, Back};
use crate::parts::Store;
use crate::queues::Queues;
use crate::store::{add_entry, entry_of, first_waiting, queue_up, remove_entry, set_entry};
use fr_base::{MutexNo, NoMemory, ThreadNo};
use heap_partition::Owned;
use slab::Slab;
use std::alloc::Global;
use std::marker::Model;

/// The mutexes whose home a server is, each until its last share is gone and its content is in. Contracts see as `state` the mutexes by
/// rising number, each with its content, its shares and who waits for it, and beside it as `room` how many more mutexes and
/// how many more threads that ask fit without memory.
///
/// A mutex, and who waits first for one, are found in constant time, and nothing is moved where a thread asks or is granted the content.
/// Only `reserve` takes memory.
#[derive(Drop)]
pub struct Mutexes {
    store: Store,
    made: u32,
    // for how many mutexes and for how many threads there is still room, by what was reserved
    for_mutexes: usize,
    for_threads: usize,
}

impl Model for Mutexes {
    ghost use Rattle.std.specs.Prelude.{◌≡◌, ◌≤◌, ◌+◌, length, vec_len};
    ghost use Rattle.std.specs.Vec.{vec_capacity};
    ghost use Rattle.slab.specs.Slab.{HasRoomFor};
    ghost use Rattle.mutex_home.specs.Stores.{mutexes_in};
    ghost use Rattle.mutex_home.specs.View.{MutexesView};

    ghost Value = { MutexesView };

    ghost view = { λ m. record { state = record { home = m.store.home; made = m.made; there = mutexes_in m.store }; room = record { mutexes = m.for_mutexes; threads = m.for_threads } } };

    ghost invariant = { λ m. (vec_len m.store.keys ≡ m.made) × (length m.store.waits.lists ≡ m.made) × (vec_len m.store.keys + m.for_mutexes ≤ vec_capacity m.store.keys) × HasRoomFor m.store.entries m.for_mutexes × (length m.store.waits.lists + m.for_mutexes ≤ m.store.waits.mutexes) × (m.store.waits.waiting + m.for_threads ≤ m.store.waits.threads) };
}

impl Mutexes {
    /// No mutex of that server, and no memory taken yet.
    pub fn new(alloc: Global, home: u8) -> Mutexes
        ensures state { result.state ≡ record { home = home; made = 0; there = [] } }
        ensures spare { result.room ≡ record { mutexes = 0; threads = 0 } }
    {
        Mutexes {
            store: Store {
                home,
                keys: Vec::new(alloc),
                entries: Slab::new(alloc),
                waits: Queues::new(alloc),
            },
            made: 0,
            for_mutexes: 0,
            for_threads: 0,
        }
    }

    /// Makes room for `n` more mutexes and `n` more threads that ask; a refusal changes nothing.
    pub fn reserve(&mut self, n: usize) -> Result<(), NoMemory>
        ensures state { self.new.state ≡ self.old.state }
        ensures mutexes { OnOk result (n ≤ self.new.room.mutexes) }
        ensures threads { OnOk result (n ≤ self.new.room.threads) }
        ensures had_room { n ≤ self.old.room.mutexes → n ≤ self.old.room.threads → IsOk result }
        ensures spare_mutexes { self.old.room.mutexes ≤ self.new.room.mutexes }
        ensures spare_threads { self.old.room.threads ≤ self.new.room.threads }
        ensures refused { OnErr result (self.new ≡ self.old) }
    {
        match self.store.keys.reserve(n) {
            Ok(()) => {}
            Err(_) => return Err(NoMemory),
        }
        match self.store.entries.reserve(n) {
            Ok(()) => {}
            Err(_) => return Err(NoMemory),
        }
        match self.store.waits.reserve(n) {
            Ok(()) => {}
            Err(_) => return Err(NoMemory),
        }
        self.for_mutexes = self.for_mutexes.max(n);
        self.for_threads = self.for_threads.max(n);
        Ok(())
    }

    /// A new mutex with that content and one share, and its number. There is room, and fewer than 4,294,967,295 mutexes were made
    /// here.
    pub fn make(&mut self, content: Owned) -> MutexNo
        requires room { 0 < self.old.room.mutexes }
        requires few { can_make self.old.state ≡ true }
        ensures number { result ≡ next_mutex self.old.state }
        ensures state { self.new.state ≡ make self.old.state content }
        ensures spare_mutexes { self.new.room.mutexes + 1 ≡ self.old.room.mutexes }
        ensures spare_threads { self.new.room.threads ≡ self.old.room.threads }
    {
        let count = self.made + 1;
        add_entry(&mut self.store, count, content);
        self.made = count;
        self.for_mutexes -= 1;
        MutexNo {
            home: self.store.home,
            count,
        }
    }

    /// A thread at that server asks for the content: it is `Queued` exactly where the content is out, and has the content else. There
    /// is room, and the mutex is there.
    pub fn ask(&mut self, number: MutexNo, server: u8, thread: ThreadNo) -> Asked
        requires room { 0 < self.old.room.threads }
        requires there { IsSome (mutex_in self.old.state.there number) }
        ensures state { ask self.old.state number server thread ≡ Some (self.new.state, result) }
        ensures spare_mutexes { self.new.room.mutexes ≡ self.old.room.mutexes }
        ensures spare_threads { self.new.room.threads + 1 ≡ self.old.room.threads }
    {
        let entry = entry_of(&self.store, number);
        let content = entry.content;
        self.for_threads -= 1;
        match content {
            None => {
                queue_up(&mut self.store, number, server, thread);
                Asked::Queued
            }
            Some(content) => {
                set_entry(&mut self.store, number, None, entry.shares);
                Asked::Granted(content)
            }
        }
    }

    /// The content comes back: it goes on to the first that waits; where none waits it is in again, and where no share is left
    /// either, the mutex is gone. The mutex is there, and its content is out.
    pub fn give_back(&mut self, number: MutexNo, content: Owned) -> Back
        requires there { IsSome (give_back self.old.state number content) }
        ensures state { give_back self.old.state number content ≡ Some (self.new.state, result) }
        ensures spare { self.new.room ≡ self.old.room }
    {
        let entry = entry_of(&self.store, number);
        match first_waiting(&mut self.store, number) {
            Some((server, thread)) => Back::Next(server, thread, content),
            None if entry.shares == 0 => {
                remove_entry(&mut self.store, number);
                Back::Ended(content)
            }
            None => {
                set_entry(&mut self.store, number, Some(content), entry.shares);
                Back::Kept
            }
        }
    }

    /// One share more. The mutex is there and has a share, and fewer than 2^64 - 1 of them.
    pub fn more(&mut self, number: MutexNo)
        requires there { IsSome (more self.old.state number) }
        ensures state { more self.old.state number ≡ Some self.new.state }
        ensures spare { self.new.room ≡ self.old.room }
    {
        let entry = entry_of(&self.store, number);
        set_entry(&mut self.store, number, entry.content, entry.shares + 1);
    }

    /// One share less. It answers the content exactly where this was the last share and the content is in: then the mutex is gone. The
    /// mutex is there and has a share.
    pub fn less(&mut self, number: MutexNo) -> Option<Owned>
        requires there { IsSome (less self.old.state number) }
        ensures state { less self.old.state number ≡ Some (self.new.state, result) }
        ensures spare { self.new.room ≡ self.old.room }
    {
        let entry = entry_of(&self.store, number);
        let content = entry.content;
        let shares = entry.shares - 1;
        if shares == 0 && content.is_some() {
            remove_entry(&mut self.store, number);
            content
        } else {
            set_entry(&mut self.store, number, content, shares);
            None
        }
    }
}
