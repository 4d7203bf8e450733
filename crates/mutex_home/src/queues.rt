//! Who waits for each mutex of a home.

ghost use Rattle.std.specs.Prelude.{◌≡◌, ◌+◌, ◌<◌, ◌≤◌, ◌++◌, [], ◌∷◌, length, IsOk, OnOk, IfNone};
ghost use Rattle.slab.specs.Slab.{slab_len};
ghost use Rattle.mutex_home.specs.Queues.{appended, first_key, with_last, first_taken};

use fr_base::{NoMemory, ThreadNo};
use slab::Slab;
use std::alloc::Global;
use std::marker::Model;

/// A thread at that server that waits for the mutex at that place, and the key of the one that waits next for the same mutex.
#[derive(Clone, Copy, Debug, PartialEq, Eq)]
pub struct Node {
    pub mutex: usize,
    pub server: u8,
    pub thread: ThreadNo,
    pub next: Option<usize>,
}

/// How many wait for a mutex, and the keys of the first and, where one waits, of the last of them.
#[derive(Clone, Copy, Debug, PartialEq, Eq)]
pub struct Ends {
    pub first: Option<usize>,
    pub last: usize,
    pub waiting: usize,
}

/// Who waits for each mutex that was ever made, in the order of asking. Contracts see a list for each mutex, at the mutex's place from 0
/// on, and how many wait in all and fit without memory.
///
/// Who asks and who is first is found in constant time, and nothing is moved for it.
#[derive(Drop)]
pub struct Queues {
    nodes: Slab<Node>,
    ends: Vec<Ends>,
}

impl Model for Queues {
    ghost use Rattle.std.specs.Prelude.{◌≤◌};
    ghost use Rattle.std.specs.Vec.{vec_capacity};
    ghost use Rattle.slab.specs.Slab.{slab_len};
    ghost use Rattle.mutex_home.specs.Queues.{QueuesView, queues_of, AllChained, all_waiting};

    ghost Value = { QueuesView };

    ghost view = { λ q. record { lists = queues_of q.nodes.slots q.ends.items; waiting = slab_len q.nodes; threads = q.nodes.capacity; mutexes = vec_capacity q.ends } };

    ghost invariant = { λ q. AllChained q.nodes.slots q.ends.items × (all_waiting q.ends.items ≤ slab_len q.nodes) };
}

impl Queues {
    /// No mutex, and no memory taken yet.
    pub fn new(alloc: Global) -> Queues
        ensures lists { result.lists ≡ [] }
        ensures waiting { result.waiting ≡ 0 }
    {
        Queues {
            nodes: Slab::new(alloc),
            ends: Vec::new(alloc),
        }
    }

    /// Makes room for `n` more mutexes and `n` more threads; a refusal leaves who waits as it was.
    pub fn reserve(&mut self, n: usize) -> Result<(), NoMemory>
        ensures lists { self.new.lists ≡ self.old.lists }
        ensures waiting { self.new.waiting ≡ self.old.waiting }
        ensures mutexes { OnOk result (length self.new.lists + n ≤ self.new.mutexes) }
        ensures threads { OnOk result (self.new.waiting + n ≤ self.new.threads) }
        ensures had_room { length self.old.lists + n ≤ self.old.mutexes → self.old.waiting + n ≤ self.old.threads → IsOk result }
        ensures no_fewer_mutexes { self.old.mutexes ≤ self.new.mutexes }
        ensures no_fewer_threads { self.old.threads ≤ self.new.threads }
    {
        match self.ends.reserve(n) {
            Ok(()) => {}
            Err(_) => return Err(NoMemory),
        }
        match self.nodes.reserve(n) {
            Ok(()) => Ok(()),
            Err(_) => Err(NoMemory),
        }
    }

    /// One mutex more, for which none waits. There is room.
    pub fn add(&mut self)
        requires room { length self.old.lists < self.old.mutexes }
        ensures lists { self.new.lists ≡ self.old.lists ++ [] ∷ [] }
        ensures waiting { self.new.waiting ≡ self.old.waiting }
        ensures mutexes { self.new.mutexes ≡ self.old.mutexes }
        ensures threads { self.new.threads ≡ self.old.threads }
    {
        self.ends.push_reserved(Ends {
            first: None,
            last: 0,
            waiting: 0,
        });
    }

    /// One more waits for a mutex, after all others. There is room.
    pub fn push(&mut self, mutex: usize, server: u8, thread: ThreadNo)
        requires made { mutex < length self.old.lists }
        requires room { self.old.waiting < self.old.threads }
        ensures lists { self.new.lists ≡ with_last self.old.lists mutex (server, thread) }
        ensures made { length self.new.lists ≡ length self.old.lists }
        ensures waiting { self.new.waiting ≡ self.old.waiting + 1 }
        ensures mutexes { self.new.mutexes ≡ self.old.mutexes }
        ensures threads { self.new.threads ≡ self.old.threads }
    {
        let ends = self.ends[mutex];
        let key = self.nodes.insert_reserved(Node {
            mutex,
            server,
            thread,
            next: None,
        });
        let first = append(&mut self.nodes, ends, key);
        // There are no more that wait than nodes, whose number fits.
        let _nodes = self.nodes.len();
        self.ends[mutex] = Ends {
            first,
            last: key,
            waiting: ends.waiting + 1,
        };
    }

    /// The first that waits for a mutex, who waits no longer.
    pub fn take(&mut self, mutex: usize) -> Option<(u8, ThreadNo)>
        requires made { mutex < length self.old.lists }
        ensures first { first_taken self.old.lists mutex ≡ (self.new.lists, result) }
        ensures none { IfNone result (self.new ≡ self.old) }
        ensures made { length self.new.lists ≡ length self.old.lists }
        ensures waiting { self.new.waiting ≤ self.old.waiting }
        ensures mutexes { self.new.mutexes ≡ self.old.mutexes }
        ensures threads { self.new.threads ≡ self.old.threads }
    {
        let ends = self.ends[mutex];
        match ends.first {
            None => None,
            Some(key) => {
                let node = self.nodes.remove(key);
                self.ends[mutex] = Ends {
                    first: node.next,
                    last: ends.last,
                    waiting: ends.waiting - 1,
                };
                Some((node.server, node.thread))
            }
        }
    }
}

// The node with that key comes after the last of a chain; the answer is the key of the first.
fn append(nodes: &mut Slab<Node>, ends: Ends, key: usize) -> Option<usize>
    ensures nodes { nodes.new ≡ record nodes.old { slots = appended nodes.old.slots ends.first ends.last key } }
    ensures len { slab_len nodes.new ≡ slab_len nodes.old }
    ensures first { result ≡ first_key ends.first key }
{
    match ends.first {
        None => Some(key),
        Some(first) => {
            if let Some(node) = nodes.get_mut(ends.last) {
                node.next = Some(key);
            }
            Some(first)
        }
    }
}
