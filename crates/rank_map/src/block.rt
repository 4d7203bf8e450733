//! The places of keys that stand side by side.

ghost use Rattle.std.specs.Prelude.{◌≡◌, ℕ, ◌+◌, ◌^◌, ◌<◌, ◌≤◌, [], true, false, None, Some, length, option_map, slice_get, IsTrue, IfOk};
ghost use Rattle.rank_map.specs.Blocks.{from_slots};
ghost use Rattle.rank_map.specs.Places.{place_at, has_place, item_in, item_at, with_place, count_of, entries, Rises};

use fr_base::NoMemory;
use std::alloc::Global;
use std::marker::Model;
use std::mem;

/// How many keys a block stands for. The first is a multiple of it.
pub(crate) const SLOTS: u64 = 16;

/// A slot for each key of a block: no place, a free place, or an item. Contracts see the first key and the places.
#[derive(Drop)]
pub(crate) struct Block<T> {
    first: u64,
    slots: Vec<Option<Option<T>>>,
    items: usize,
    places: usize,
}

impl<T> Model for Block<T> {
    ghost use Rattle.rank_map.specs.Blocks.{BlockView, from_slots, IsBlock};

    ghost Value = { BlockView T };

    ghost view = { λ b. record { first = b.first; places = from_slots b.first b.slots.items } };

    ghost invariant = { λ b. IsBlock b.first b.items b.places b.slots.items };
}

// One item, or none.
pub(crate) fn count_of<T>(item: &Option<T>) -> usize
    ensures { result ≡ count_of item.now }
{
    usize::from(item.is_some())
}

// The items of a slot: one, or none.
fn items_in<T>(slot: &Option<Option<T>>) -> usize
    ensures { result ≡ count_of (item_in slot.now) }
{
    match slot {
        Some(place) => count_of(place),
        None => 0,
    }
}

// The slots of a block, all without a place.
fn make_slots<T: Drop>(alloc: Global) -> Result<Vec<Option<Option<T>>>, NoMemory>
    ensures whole { IfOk result (λ slots. length slots.items ≡ 16) }
    ensures none { IfOk result (λ slots. (first : ℕ) → from_slots first slots.items ≡ []) }
{
    let mut slots = Vec::with_capacity(alloc, SLOTS as usize)?;
    'slots: for _ in 0..SLOTS {
        slots.push_reserved(None);
    }
    Ok(slots)
}

impl<T: Drop> Block<T> {
    // The block of a key, with no place.
    pub(crate) fn new(alloc: Global, key: u64) -> Result<Block<T>, NoMemory>
        requires few { key < 2 ^ 40 }
        ensures none { IfOk result (λ block. block.places ≡ []) }
        ensures first { IfOk result (λ block. (block.first ≤ key) × (key < block.first + 16)) }
    {
        let slots = make_slots(alloc)?;
        Ok(Block {
            first: key - key % SLOTS,
            slots,
            items: 0,
            places: 0,
        })
    }

    // Its keys are from the first on and below the second.
    pub(crate) fn range(&self) -> (u64, u64)
        ensures from { result.0 ≡ self.now.first }
        ensures to { result.1 ≡ self.now.first + 16 }
        ensures few { result.1 ≤ 2 ^ 40 }
        ensures rises { Rises result.0 result.1 self.now.places }
    {
        (self.first, self.first + SLOTS)
    }

    // Whether there is no place.
    pub(crate) fn is_empty(&self) -> bool
        ensures none { IsTrue result → self.now.places ≡ [] }
        ensures some { result ≡ false → 0 < length self.now.places }
    {
        self.places == 0
    }

    // How many items there are.
    pub(crate) fn len(&self) -> usize
        ensures { result ≡ length (entries self.now.places) }
    {
        self.items
    }

    // The place of a key: its item, or none.
    pub(crate) fn place(&self, key: u64) -> Option<&Option<T>>
        ensures { option_map (λ x. x.now) result ≡ place_at self.now.places key }
    {
        if key < self.first || self.first + SLOTS <= key {
            return None;
        }
        self.slots[(key - self.first) as usize].as_ref()
    }

    // The key of the item at that place among the items.
    pub(crate) fn nth(&self, at: usize) -> Option<u64>
        ensures { result ≡ option_map (λ e. e.key) (slice_get (entries self.now.places) at) }
    {
        let mut left = at;
        'slots: for slot in 0..SLOTS {
            let items = items_in(&self.slots[slot as usize]);
            if left < items {
                return Some(self.first + slot);
            }
            left -= items;
        }
        None
    }

    // Makes a free place for a key of the block that has none.
    pub(crate) fn reserve(&mut self, key: u64)
        requires from { self.old.first ≤ key }
        requires to { key < self.old.first + 16 }
        requires new { has_place self.old.places key ≡ false }
        ensures first { self.new.first ≡ self.old.first }
        ensures places { self.new.places ≡ with_place self.old.places key (Some None) }
    {
        self.slots[(key - self.first) as usize] = Some(None);
        self.places += 1;
    }

    // Another item at a key that has a place, or none, in exchange for the one that is there.
    pub(crate) fn swap(&mut self, key: u64, item: &mut Option<T>)
        requires place { has_place self.old.places key ≡ true }
        ensures first { self.new.first ≡ self.old.first }
        ensures item { item.new ≡ item_at self.old.places key }
        ensures places { self.new.places ≡ with_place self.old.places key (Some item.old) }
    {
        let more = count_of(item);
        match &mut self.slots[(key - self.first) as usize] {
            Some(place) => mem::swap(place, item),
            None => unreachable!(),
        }
        self.items = self.items + more - count_of(item);
    }

    // Takes a key's place out, and its item. There is such a place.
    pub(crate) fn remove(&mut self, key: u64, item: &mut Option<T>)
        requires place { has_place self.old.places key ≡ true }
        ensures first { self.new.first ≡ self.old.first }
        ensures item { item.new ≡ item_at self.old.places key }
        ensures places { self.new.places ≡ with_place self.old.places key None }
    {
        let Some(place) = self.slots[(key - self.first) as usize].take() else {
            unreachable!()
        };
        *item = place;
        self.items -= count_of(item);
        self.places -= 1;
    }
}
