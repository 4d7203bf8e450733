//! A list behind one pointer.

ghost use Rattle.std.specs.Prelude.{◌≡◌, ◌+◌, ◌≤◌, ◌<◌, ◌++◌, [], ◌∷◌, length, slice_get, IsOk, OnOk, OnErr, option_copied};

use crate::list::List;
use crate::memory::NoMemory;
use std::alloc::Global;
use std::marker::Model;

/// Values in order, as a `List` has them, but where it stands it takes 16 bytes in place of 24, and the list itself is made with the first
/// room: for what has several lists in some of its cases, and mostly is another. Contracts see what they see of a `List`.
/// A push takes constant time on average, `at` and `len` always.
#[derive(Debug, Drop)]
pub struct BoxedList<T> {
    alloc: Global,
    list: Option<Box<List<T>>>,
}

impl<T> Model for BoxedList<T> {
    ghost use Rattle.fr_base.specs.Rooms.{WithRoom, list_in};

    ghost Value = { WithRoom T };

    ghost view = { λ b. list_in b.list };
}

impl<T: Drop> BoxedList<T> {
    /// No value, and no memory taken yet.
    pub fn new(alloc: Global) -> BoxedList<T>
        ensures { result.items ≡ [] }
    {
        BoxedList { alloc, list: None }
    }

    /// Makes room, so that the next `n` pushes can't be refused; a refusal changes nothing.
    pub fn reserve(&mut self, n: usize) -> Result<(), NoMemory>
        ensures items { self.new.items ≡ self.old.items }
        ensures room { OnOk result (n ≤ self.new.spare) }
        ensures had_room { n ≤ self.old.spare → IsOk result }
        ensures spare { self.old.spare ≤ self.new.spare }
        ensures refused { OnErr result (self.new ≡ self.old) }
    {
        if n == 0 {
            return Ok(());
        }
        match &mut self.list {
            Some(list) => list.reserve(n),
            None => {
                let mut list = List::new(self.alloc);
                list.reserve(n)?;
                self.list = Some(Box::new(self.alloc, list)?);
                Ok(())
            }
        }
    }

    /// Adds a value at the end. With room it can't be refused; a refusal changes nothing, and drops the value.
    pub fn push(&mut self, value: T) -> Result<(), NoMemory>
        ensures pushed { OnOk result (self.new.items ≡ self.old.items ++ value ∷ []) }
        ensures spare { OnOk result (self.old.spare ≤ self.new.spare + 1) }
        ensures room { 0 < self.old.spare → IsOk result }
        ensures refused { OnErr result (self.new ≡ self.old) }
    {
        self.reserve(1)?;
        match &mut self.list {
            Some(list) => list.push(value),
            None => unreachable!(),
        }
    }

    /// How many values there are.
    pub fn len(&self) -> u64
        ensures { result ≡ length self.now.items }
    {
        match &self.list {
            Some(list) => list.len(),
            None => 0,
        }
    }

    /// The value at that place, from 0; `None` exactly past the end.
    pub fn at(&self, at: u64) -> Option<&T>
        ensures { option_copied result ≡ slice_get self.now.items at }
    {
        match &self.list {
            Some(list) => list.at(at),
            None => None,
        }
    }

    /// The values in order.
    pub fn as_slice(&self) -> &[T]
        ensures { result.now ≡ self.now.items }
    {
        match &self.list {
            Some(list) => list.as_slice(),
            None => &[],
        }
    }
}
