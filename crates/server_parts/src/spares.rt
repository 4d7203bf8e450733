//! What is kept for new threads.

ghost use Rattle.std.specs.Prelude.{◌≡◌, ◌+◌, ◌<◌, ◌≤◌, [], IsOk, OnOk};
ghost use Rattle.std.specs.Vec.{vec_capacity};
ghost use Rattle.server_parts.specs.Growing.{HaveSparesGrown};

use fr_base::{NoMemory, ThreadNo};
use std::alloc::Global;
use std::marker::Model;
use std::mem;
use thread_state::{BoxedThread, Thread, Value};

/// Boxes and two empty lists of slots for the threads that a step starts. Contracts see how many boxes there are, and how many slots fit in each
/// list without memory.
#[derive(Drop)]
pub struct Spares {
    /// Where the new threads' lists come from.
    pub alloc: Global,
    first: Vec<Value>,
    second: Vec<Value>,
    boxes: Vec<BoxedThread>,
}

impl Model for Spares {
    ghost use Rattle.std.specs.Prelude.{◌≡◌, [], length};
    ghost use Rattle.std.specs.Vec.{vec_capacity};
    ghost use Rattle.server_parts.specs.Spares.{SparesView};

    ghost Value = { SparesView };

    ghost view = { λ s. record { first = vec_capacity s.first; second = vec_capacity s.second; boxes = length s.boxes.items } };

    ghost invariant = { λ s. (s.first.items ≡ []) × (s.second.items ≡ []) };
}

impl Spares {
    /// No room, and no memory taken yet.
    pub fn new(alloc: Global) -> Spares {
        Spares {
            alloc,
            first: Vec::new(alloc),
            second: Vec::new(alloc),
            boxes: Vec::new(alloc),
        }
    }

    /// Makes room for so many slots in each list; room that was made stays, also where it is refused.
    pub fn reserve(&mut self, first: usize, second: usize) -> Result<(), NoMemory>
        ensures room { OnOk result ((first ≤ self.new.first) × (second ≤ self.new.second)) }
        ensures had_room { first ≤ self.old.first → second ≤ self.old.second → IsOk result }
        ensures grown { HaveSparesGrown self.old self.new }
    {
        self.first.reserve(first)?;
        self.second.reserve(second)?;
        Ok(())
    }

    // One box more where there are fewer than so many.
    fn add_box(&mut self, boxes: usize) -> Result<(), NoMemory>
        ensures more { OnOk result ((self.old.boxes < boxes → self.new.boxes ≡ self.old.boxes + 1)) }
        ensures had { boxes ≤ self.old.boxes → IsOk result }
        ensures grown { HaveSparesGrown self.old self.new }
    {
        if self.boxes.len() < boxes {
            let new = Thread::new(self.alloc, ThreadNo::new(0, 0), 0, Vec::new(self.alloc));
            self.boxes.push(BoxedThread::new(self.alloc, new)?)?;
        }
        Ok(())
    }

    /// Makes boxes, as long as there are fewer than so many, at most two; those that were made stay, also where one is refused.
    pub fn reserve_boxes(&mut self, boxes: usize) -> Result<(), NoMemory>
        requires { boxes ≤ 2 }
        ensures room { OnOk result (boxes ≤ self.new.boxes) }
        ensures had_room { boxes ≤ self.old.boxes → IsOk result }
        ensures grown { HaveSparesGrown self.old self.new }
    {
        self.add_box(boxes)?;
        self.add_box(boxes)
    }

    /// The first list, which is empty.
    pub fn take_first(&mut self) -> Vec<Value>
        ensures items { result.items ≡ [] }
        ensures room { vec_capacity result ≡ self.old.first }
        ensures second { self.new.second ≡ self.old.second }
        ensures boxes { self.new.boxes ≡ self.old.boxes }
    {
        mem::replace(&mut self.first, Vec::new(self.alloc))
    }

    /// The second list, which is empty.
    pub fn take_second(&mut self) -> Vec<Value>
        ensures items { result.items ≡ [] }
        ensures room { vec_capacity result ≡ self.old.second }
        ensures first { self.new.first ≡ self.old.first }
        ensures boxes { self.new.boxes ≡ self.old.boxes }
    {
        mem::replace(&mut self.second, Vec::new(self.alloc))
    }

    /// A box, with a thread that is to be put over.
    pub fn take_box(&mut self) -> BoxedThread
        requires there { 0 < self.old.boxes }
        ensures boxes { self.old.boxes ≡ self.new.boxes + 1 }
        ensures first { self.new.first ≡ self.old.first }
        ensures second { self.new.second ≡ self.old.second }
    {
        match self.boxes.pop() {
            Some(boxed) => boxed,
            None => unreachable!(),
        }
    }
}
