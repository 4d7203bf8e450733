//! Where things of a thread stand that are kept in lists, a thread after another.

ghost use Rattle.std.specs.Prelude.{◌≡◌, ◌+◌, ◌<◌, ◌≤◌, ◌^◌, ◌++◌, ◌∷◌, [], length, None, OnOk, IfSome};
ghost use Rattle.fr_shared.specs.Places.{place_of, is_first};

use fr_base::{NoMemory, ThreadNo};
use indexmap::IndexSet;
use std::alloc::Global;
use std::marker::Model;

/// The place of each thread in the order in which they came. A look-up takes no time in the number of threads.
/// Contracts see the threads' numbers in this order, and how many more fit without memory.
#[derive(Drop)]
pub struct Places {
    numbers: IndexSet<u64>,
}

impl Model for Places {
    ghost use Rattle.indexmap.specs.IndexSet.{spare};
    ghost use Rattle.fr_shared.specs.Places.{Numbers};

    ghost Value = { Numbers };

    ghost view = { λ p. record { numbers = p.numbers.keys; spare = spare p.numbers } };
}

impl Places {
    /// No thread has a place, and no memory is taken yet.
    pub fn new(alloc: Global) -> Places
        ensures { result.numbers ≡ [] }
    {
        Places {
            numbers: IndexSet::new(alloc),
        }
    }

    /// Makes room for one thread more; a refusal changes no place.
    pub fn reserve(&mut self) -> Result<(), NoMemory>
        ensures numbers { self.new.numbers ≡ self.old.numbers }
        ensures room { OnOk result (0 < self.new.spare) }
        ensures spare { self.old.spare ≤ self.new.spare }
    {
        self.reserve_for(1)
    }

    /// Makes room for so many threads more; a refusal changes no place.
    pub fn reserve_for(&mut self, count: usize) -> Result<(), NoMemory>
        ensures numbers { self.new.numbers ≡ self.old.numbers }
        ensures room { OnOk result (count ≤ self.new.spare) }
        ensures spare { self.old.spare ≤ self.new.spare }
    {
        match self.numbers.reserve(count) {
            Ok(()) => Ok(()),
            Err(_) => Err(NoMemory),
        }
    }

    /// How many threads have a place.
    pub fn len(&self) -> usize
        ensures numbers { result ≡ length self.now.numbers }
        ensures small { result < 2 ^ 63 }
    {
        self.numbers.len()
    }

    /// The place of a thread, where it has one.
    pub fn at(&self, thread: ThreadNo) -> Option<usize>
        ensures place { result ≡ place_of self.now.numbers thread }
        ensures within { IfSome result (λ i. i < length self.now.numbers) }
    {
        let number = thread.number();
        if self.is_first(number) {
            return Some(0);
        }
        self.numbers.get_index_of(&number)
    }

    // Whether the number's thread came first. It is found with no look-up.
    fn is_first(&self, number: u64) -> bool
        ensures { result ≡ is_first self.now.numbers number }
    {
        match self.numbers.first() {
            Some(first) => *first == number,
            None => false,
        }
    }

    /// Gives a thread the next place.
    pub fn add(&mut self, thread: ThreadNo)
        requires new { place_of self.old.numbers thread ≡ None }
        requires room { 0 < self.old.spare }
        ensures numbers { self.new.numbers ≡ self.old.numbers ++ thread ∷ [] }
        ensures spare { self.old.spare ≤ self.new.spare + 1 }
    {
        match self.numbers.insert(thread.number()) {
            Ok(_) => {}
            Err(_) => unreachable!(),
        }
    }
}
