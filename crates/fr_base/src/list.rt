//! A list that tells how much room it has.

ghost use Rattle.std.specs.Prelude.{◌≡◌, ◌+◌, ◌≤◌, ◌<◌, ◌++◌, [], ◌∷◌, length, slice_get, IsOk, IfOk, OnOk, OnErr, option_copied};

use crate::memory::NoMemory;
use std::alloc::Global;
use std::marker::Model;

/// Values in order. Contracts see the list, and beside it how many more fit without memory.
/// A push takes constant time on average, `at`, `spare` and `len` always.
#[derive(Debug, Drop)]
pub struct List<T> {
    pub(crate) items: Vec<T>,
}

impl<T> Model for List<T> {
    ghost use Rattle.std.specs.Prelude.{◌-◌, vec_len};
    ghost use Rattle.std.specs.Vec.{vec_capacity};
    ghost use Rattle.fr_base.specs.Rooms.{WithRoom};

    ghost Value = { WithRoom T };

    ghost view = { λ l. record { items = l.items.items; spare = vec_capacity l.items - vec_len l.items } };
}

impl<T: Drop> List<T> {
    /// No value, and no memory taken yet.
    pub fn new(alloc: Global) -> List<T>
        ensures { result.items ≡ [] }
    {
        List {
            items: Vec::new(alloc),
        }
    }

    /// Makes room, so that the next `n` pushes can't be refused; a refusal changes nothing.
    pub fn reserve(&mut self, n: usize) -> Result<(), NoMemory>
        ensures items { self.new.items ≡ self.old.items }
        ensures room { OnOk result (n ≤ self.new.spare) }
        ensures had_room { n ≤ self.old.spare → IsOk result }
        ensures spare { self.old.spare ≤ self.new.spare }
        ensures refused { OnErr result (self.new ≡ self.old) }
    {
        match self.items.reserve(n) {
            Ok(()) => Ok(()),
            Err(_) => Err(NoMemory),
        }
    }

    /// Adds a value at the end. With room it can't be refused; a refusal changes nothing, and drops the value.
    pub fn push(&mut self, value: T) -> Result<(), NoMemory>
        ensures pushed { OnOk result (self.new.items ≡ self.old.items ++ value ∷ []) }
        ensures spare { OnOk result (self.old.spare ≤ self.new.spare + 1) }
        ensures room { 0 < self.old.spare → IsOk result }
        ensures refused { OnErr result (self.new ≡ self.old) }
    {
        if self.items.reserve(1).is_err() {
            return Err(NoMemory);
        }
        self.items.push_reserved(value);
        Ok(())
    }

    /// Moves the values of another list behind those that are there, in order. A refusal leaves both lists as they are. It takes time linear in
    /// the values that move, and also in those that are there where more room is to be made.
    pub fn append(&mut self, other: &mut List<T>) -> Result<(), NoMemory>
        ensures items { OnOk result (self.new.items ≡ self.old.items ++ other.old.items) }
        ensures emptied { OnOk result (other.new.items ≡ []) }
        ensures had_room { length other.old.items ≤ self.old.spare → IsOk result }
        ensures refused { OnErr result ((self.new.items ≡ self.old.items) × (other.new.items ≡ other.old.items)) }
    {
        match self.items.append(&mut other.items) {
            Ok(()) => Ok(()),
            Err(_) => Err(NoMemory),
        }
    }

    /// No value any more; what room the values had is there for others. It drops each, so that it takes time linear in their number.
    pub fn clear(&mut self)
        ensures items { self.new.items ≡ [] }
        ensures spare { self.old.spare + length self.old.items ≤ self.new.spare }
    {
        self.items.clear();
    }

    /// How many more values fit without memory.
    pub fn spare(&self) -> usize
        ensures { result ≡ self.now.spare }
    {
        self.items.capacity() - self.items.len()
    }

    /// How many values there are.
    pub fn len(&self) -> u64
        ensures { result ≡ length self.now.items }
    {
        self.items.len() as u64
    }

    /// The value at that place, from 0; `None` exactly past the end.
    pub fn at(&self, at: u64) -> Option<&T>
        ensures { option_copied result ≡ slice_get self.now.items at }
    {
        self.items.get(at as usize)
    }

    /// The values in order.
    pub fn as_slice(&self) -> &[T]
        ensures { result.now ≡ self.now.items }
    {
        &self.items
    }
}

impl<T: Copy + Drop> List<T> {
    /// The same values in a list of their own, which has room for no more of them than the allocator rounds up to. It takes time linear in their number.
    pub fn from_slice(alloc: Global, values: &[T]) -> Result<List<T>, NoMemory>
        ensures { IfOk result (λ list. list.items ≡ values.now) }
    {
        match Vec::from_slice(alloc, values) {
            Ok(items) => Ok(List { items }),
            Err(_) => Err(NoMemory),
        }
    }
}
