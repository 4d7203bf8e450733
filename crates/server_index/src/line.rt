//! A queue whose items stand in the order in which they came, found by the marks before them.

ghost use Rattle.std.specs.Prelude.{◌≡◌, ◌+◌, ◌++◌, ◌^◌, ◌<◌, ◌≤◌, [], ◌∷◌, Some, None, length, replicate, option_map, slice_get, IfOk, OnOk, OnErr};
ghost use Rattle.std.specs.List.{remove};
ghost use Rattle.server_index.specs.Lines.{values};

use crate::row::{FREE, MARK, Row};
use fr_base::NoMemory;
use std::alloc::Global;
use std::marker::Model;
use std::mem;

// How many slots there are, at most: so many take more than a hundred gigabytes.
const MOST: usize = 1 << 32;

/// A queue of items, each in a slot of its own, in the order in which they came: one that comes gets the next slot, and that of one which is
/// taken out stays empty. The item of a rank is found by the marks beside the slots. Contracts see the items as `items`, and beside them as
/// `room` how many slots come after the last one that was given.
///
/// Where more is asked for than there are such slots, the items move to a line of twice as many slots as there are items and asked ones.
#[derive(Drop)]
pub(crate) struct Line<T> {
    alloc: Global,
    // which slots have an item
    marks: Row,
    slots: Vec<Option<T>>,
    // the slot of the next item that comes
    next: usize,
}

impl<T> Model for Line<T> {
    ghost use Rattle.std.specs.Prelude.{◌-◌, length};
    ghost use Rattle.rank_map.specs.Queues.{QueueView};
    ghost use Rattle.server_index.specs.Lines.{values, IsLine};

    ghost Value = { QueueView T };

    ghost view = { λ l. record { items = values l.slots.items; room = length l.slots.items - l.next } };

    ghost invariant = { λ l. IsLine l.marks l.slots.items l.next };
}

// So many slots, all empty.
fn empty_slots<T: Drop>(alloc: Global, count: usize) -> Result<Vec<Option<T>>, NoMemory>
    ensures { IfOk result (λ slots. slots.items ≡ replicate count None) }
{
    let mut slots = Vec::with_capacity(alloc, count)?;
    'slots: for _ in 0..count {
        slots.push_reserved(None);
    }
    Ok(slots)
}

// Puts the items of slots behind those of a line. There is room for them.
fn move_to<T: Drop>(mut slots: Vec<Option<T>>, line: &mut Line<T>)
    requires room { length (values slots.items) ≤ line.old.room }
    ensures items { line.new.items ≡ line.old.items ++ values slots.items }
    ensures room { line.new.room + length (values slots.items) ≡ line.old.room }
{
    'slots: for at in 0..slots.len() {
        if let Some(item) = slots[at].take() {
            line.push(item);
        }
    }
}

impl<T: Drop> Line<T> {
    // No item and no room, and no memory taken yet.
    pub(crate) fn new(alloc: Global) -> Line<T>
        ensures items { result.items ≡ [] }
        ensures room { result.room ≡ 0 }
    {
        Line {
            alloc,
            marks: Row::new(alloc),
            slots: Vec::new(alloc),
            next: 0,
        }
    }

    // No item, and room for so many.
    fn with_room(alloc: Global, count: usize) -> Result<Line<T>, NoMemory>
        requires few { count ≤ 2 ^ 32 }
        ensures items { IfOk result (λ line. line.items ≡ []) }
        ensures room { IfOk result (λ line. line.room ≡ count) }
    {
        let marks = Row::of_none(alloc, count)?;
        let slots = empty_slots(alloc, count)?;
        Ok(Line {
            alloc,
            marks,
            slots,
            next: 0,
        })
    }

    // How many items there are.
    pub(crate) fn len(&self) -> usize
        ensures count { result ≡ length self.now.items }
        ensures few { result ≤ 2 ^ 32 }
    {
        self.marks.len()
    }

    // The item at that place, from 0; none past the end.
    pub(crate) fn at(&self, at: usize) -> Option<&T>
        ensures { option_map (λ x. x.now) result ≡ slice_get self.now.items at }
    {
        if at < self.marks.len() {
            self.slots[self.marks.find(at)].as_ref()
        } else {
            None
        }
    }

    // Makes room for `n` more items. A refusal changes nothing.
    pub(crate) fn reserve(&mut self, n: usize) -> Result<(), NoMemory>
        ensures items { self.new.items ≡ self.old.items }
        ensures room { OnOk result (n ≤ self.new.room) }
        ensures refused { OnErr result (self.new ≡ self.old) }
    {
        if n <= self.slots.len() - self.next {
            return Ok(());
        }
        let len = self.len();
        if n > MOST || (len + n) * 2 > MOST {
            return Err(NoMemory);
        }
        let longer = Line::with_room(self.alloc, (len + n) * 2)?;
        let shorter = mem::replace(self, longer);
        move_to(shorter.slots, self);
        Ok(())
    }

    // Puts an item last. There is room.
    pub(crate) fn push(&mut self, item: T)
        requires room { 0 < self.old.room }
        ensures items { self.new.items ≡ self.old.items ++ item ∷ [] }
        ensures room { self.new.room + 1 ≡ self.old.room }
    {
        self.slots[self.next] = Some(item);
        self.marks.put(self.next, MARK);
        self.next += 1;
    }

    // Takes out the item at that place, from 0, and the later ones move up. There is such a place.
    pub(crate) fn take(&mut self, at: usize) -> T
        requires within { at < length self.old.items }
        ensures item { slice_get self.old.items at ≡ Some result }
        ensures items { self.new.items ≡ remove self.old.items at }
        ensures room { self.new.room ≡ self.old.room }
    {
        let column = self.marks.find(at);
        self.marks.put(column, FREE);
        match self.slots[column].take() {
            Some(item) => item,
            None => unreachable!(),
        }
    }
}
