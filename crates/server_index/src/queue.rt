//! A queue whose front stands side by side.

ghost use Rattle.std.specs.Prelude.{◌≡◌, ◌+◌, ◌++◌, ◌<◌, ◌≤◌, [], ◌∷◌, Some, length, option_map, slice_get, IsOk, OnOk, OnErr};
ghost use Rattle.std.specs.List.{remove};

use crate::line::Line;
use fr_base::NoMemory;
use std::alloc::Global;
use std::marker::Model;

// How many items stand in front, at most.
const FRONT: usize = 16;

/// Items in the order in which they came, any of which can be taken out. Contracts see the items as `items`, and beside them as
/// `room` how many more fit without memory.
///
/// Up to sixteen items stand side by side. The later ones stand in slots, where the item of a place is found by the marks before it, in the
/// logarithm of how many slots there are: at most sixteen steps for each hexadecimal digit of that number, and sixteen more. An item that is
/// taken out of the front moves at most fifteen others, and one behind it none. A queue that has no room for what is asked moves to slots
/// twice as many as wait and are asked for, so that the moves come to a constant for each item that was pushed; room that was made stays.
/// There are no more than 2^32 slots.
#[derive(Drop)]
pub struct FrontQueue<T> {
    front: Vec<T>,
    // those behind them
    rest: Line<T>,
    room: u64,
}

impl<T> Model for FrontQueue<T> {
    ghost use Rattle.std.specs.Prelude.{◌≤◌, ◌++◌, length};
    ghost use Rattle.rank_map.specs.Queues.{QueueView};

    ghost Value = { QueueView T };

    ghost view = { λ q. record { items = q.front.items ++ q.rest.items; room = q.room } };

    ghost invariant = { λ q. (length q.front.items ≤ 16) × (q.room ≤ q.rest.room) };
}

impl<T: Drop> FrontQueue<T> {
    /// No item and no room, and no memory taken yet.
    pub fn new(alloc: Global) -> FrontQueue<T>
        ensures items { result.items ≡ [] }
        ensures spare { result.room ≡ 0 }
    {
        FrontQueue {
            front: Vec::new(alloc),
            rest: Line::new(alloc),
            room: 0,
        }
    }

    /// How many items there are.
    pub fn len(&self) -> usize
        ensures { result ≡ length self.now.items }
    {
        self.front.len() + self.rest.len()
    }

    /// The item at that place, from 0; `None` exactly past the end.
    pub fn at(&self, at: usize) -> Option<&T>
        ensures { option_map (λ x. x.now) result ≡ slice_get self.now.items at }
    {
        if at < self.front.len() {
            Some(&self.front[at])
        } else {
            self.rest.at(at - self.front.len())
        }
    }

    /// Makes room for `n` more items. The items stay as they are, also where it is refused; room that was made stays. More than 2^32 slots
    /// are refused at once.
    pub fn reserve(&mut self, n: usize) -> Result<(), NoMemory>
        ensures items { self.new.items ≡ self.old.items }
        ensures room { OnOk result (n ≤ self.new.room) }
        ensures had_room { n ≤ self.old.room → IsOk result }
        ensures spare { self.old.room ≤ self.new.room }
    {
        if n as u64 <= self.room {
            return Ok(());
        }
        self.rest.reserve(n)?;
        if self.front.capacity() == 0 && self.front.reserve(FRONT).is_err() {
            return Err(NoMemory);
        }
        self.room = n as u64;
        Ok(())
    }

    /// Puts an item last. There is room.
    pub fn push(&mut self, item: T)
        requires room { 0 < self.old.room }
        ensures items { self.new.items ≡ self.old.items ++ item ∷ [] }
        ensures spare { self.new.room + 1 ≡ self.old.room }
    {
        let len = self.front.len();
        if self.rest.len() == 0 && len < FRONT && len < self.front.capacity() {
            self.front.push_reserved(item);
        } else {
            self.rest.push(item);
        }
        self.room -= 1;
    }

    /// Takes out the item at that place, from 0, and the later ones move up. There is such a place.
    pub fn take(&mut self, at: usize) -> T
        requires within { at < length self.old.items }
        ensures item { slice_get self.old.items at ≡ Some result }
        ensures items { self.new.items ≡ remove self.old.items at }
        ensures spare { self.new.room ≡ self.old.room }
    {
        let len = self.front.len();
        if at < len {
            self.front.remove(at)
        } else {
            self.rest.take(at - len)
        }
    }
}
