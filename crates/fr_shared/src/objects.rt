//! The objects of one thread.

ghost use Rattle.std.specs.Prelude.{◌≡◌, ◌<◌, ◌≤◌, ◌++◌, ◌∷◌, [], length, slice_get, slice_set, Some, None, IsSome, OnOk};
ghost use Rattle.fr_plain.specs.Heap.{flat};

use fr_base::{NoMemory, Plain};
use indexmap::IndexMap;
use std::alloc::Global;
use std::marker::Model;

/// How many objects a thread has made, and the value of each that lives, found by its count. One that was dropped keeps nothing, and
/// its room is used again. A look-up takes no time in the number of objects.
/// Contracts see a cell for each object that was made, and how many more fit without memory.
#[derive(Drop)]
pub struct Objects {
    made: u64,
    living: IndexMap<u64, Plain>,
}

impl Model for Objects {
    ghost use Rattle.fr_shared.specs.ObjectRoom.{ObjectRoom};
    ghost use Rattle.fr_shared.specs.ObjectsInside.{objects_view};

    ghost Value = { ObjectRoom };

    ghost view = { objects_view };
}

impl Objects {
    /// None was made, and no memory is taken yet.
    pub fn new(alloc: Global) -> Objects
        ensures { result.cells ≡ [] }
    {
        Objects {
            made: 0,
            living: IndexMap::new(alloc),
        }
    }

    /// Makes room for the next object; a refusal changes none. Where there are 2^64 - 1 no more can be counted, and memory is wanting.
    pub fn reserve(&mut self) -> Result<(), NoMemory>
        ensures cells { self.new.cells ≡ self.old.cells }
        ensures room { OnOk result (0 < self.new.spare) }
    {
        if self.made == u64::MAX {
            return Err(NoMemory);
        }
        match self.living.reserve(1) {
            Ok(()) => Ok(()),
            Err(_) => Err(NoMemory),
        }
    }

    /// The value of an object's cell, where the object lives.
    pub fn get(&self, count: u64) -> Option<Plain>
        ensures { result ≡ flat (slice_get self.now.cells count) }
    {
        if count < self.made {
            match self.living.get(&count) {
                Some(value) => Some(*value),
                None => None,
            }
        } else {
            None
        }
    }

    /// Puts another value into a living object's cell, or nothing, which is dropping it.
    pub fn set(&mut self, count: u64, cell: Option<Plain>)
        requires lives { IsSome (flat (slice_get self.old.cells count)) }
        ensures { self.new.cells ≡ slice_set self.old.cells count cell }
    {
        match cell {
            Some(value) => {
                match self.living.insert(count, value) {
                    Ok(_) => {}
                    Err(_) => unreachable!(),
                }
            }
            None => {
                self.living.swap_remove(&count);
            }
        }
    }

    /// Makes the next object, with this value, and gives its count.
    pub fn push(&mut self, value: Plain) -> u64
        requires room { 0 < self.old.spare }
        ensures count { result ≡ length self.old.cells }
        ensures cells { self.new.cells ≡ self.old.cells ++ Some value ∷ [] }
    {
        let count = self.made;
        match self.living.insert(count, value) {
            Ok(_) => {}
            Err(_) => unreachable!(),
        }
        self.made = count + 1;
        count
    }
}
