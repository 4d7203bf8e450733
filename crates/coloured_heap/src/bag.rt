//! How often things are there.

ghost use Rattle.std.specs.Prelude.{◌≡◌, ◌+◌, ◌-◌, ◌==◌, not, cond, None, OnOk, ℕ};
ghost use Rattle.std.specs.Map.{count_at};
ghost use Rattle.indexmap.specs.IndexMap.{get, IsEmpty};

use fr_base::NoMemory;
use indexmap::IndexMap;
use std::alloc::Global;
use std::hash::Hash;

/// Things, each as often as it was added and not taken. Each call takes constant time; `add` alone takes memory.
#[derive(Drop)]
pub(crate) struct Bag<K: Eq + Hash> {
    pub(crate) counts: IndexMap<K, u64>,
}

impl<K: Copy + Drop + Eq + Hash> Bag<K> {
    /// Nothing is there, and no memory is taken yet.
    pub(crate) fn new(alloc: Global) -> Bag<K>
        ensures { IsEmpty result.counts }
    {
        Bag {
            counts: IndexMap::new(alloc),
        }
    }

    /// How often the thing is there.
    pub(crate) fn count(&self, key: K) -> u64
        ensures { result ≡ count_at (get K.eq self.now.counts) key }
    {
        match self.counts.get(&key) {
            Some(count) => *count,
            None => 0,
        }
    }

    /// Adds the thing once more. `NoMemory` alone is refused; so is what is there 2^64 - 1 times.
    pub(crate) fn add(&mut self, key: K) -> Result<(), NoMemory>
        ensures { OnOk result ((q : K) → count_at (get K.eq self.new.counts) q ≡ cond (K.eq key q) (count_at (get K.eq self.old.counts) key + 1) (count_at (get K.eq self.old.counts) q)) }
    {
        let Some(count) = self.count(key).checked_add(1) else {
            return Err(NoMemory);
        };
        match self.counts.insert(key, count) {
            Ok(_) => Ok(()),
            Err(_) => Err(NoMemory),
        }
    }

    /// Takes the thing once, where it is there.
    pub(crate) fn take(&mut self, key: K)
        ensures { (q : K) → count_at (get K.eq self.new.counts) q ≡ cond (K.eq key q) (count_at (get K.eq self.old.counts) key - 1) (count_at (get K.eq self.old.counts) q) }
    {
        let count = self.count(key);
        if count <= 1 {
            self.counts.swap_remove(&key);
        } else if let Some(left) = self.counts.get_mut(&key) {
            *left = count - 1;
        }
    }
}
