//! Items whose slots never move.

ghost use Rattle.std.specs.Prelude.{◌≡◌, ◌<◌, ◌^◌, true, [], None, Some, option_map, IsOk, OnOk, OnErr};
ghost use Rattle.rank_map.specs.Places.{has_place, item_at, with_place, with_free};

use crate::index::Index;
use fr_base::NoMemory;
use std::alloc::Global;
use std::marker::Model;
use std::mem;

// Where the item of one key stands, or none.
#[derive(Drop)]
struct Slot<T> {
    key: u64,
    item: Option<T>,
}

/// Items by key; keys are below 2^40. An item stands at a place, and only making a place takes memory. Contracts see the places by rising
/// key, each free or with its item.
///
/// A key's place is a slot of a list, for good, and its number is looked up by the key's higher bits and then by its lower 32 bits. So a
/// call takes a handful of steps, whatever the keys and however many they are; only `reserve` can take more, where it makes a place. It
/// moves other items only where the list of the slots has to be a longer one.
#[derive(Drop)]
pub struct Table<T> {
    // the slot of each key
    index: Index,
    slots: Vec<Slot<T>>,
}

impl<T> Model for Table<T> {
    ghost use Rattle.std.specs.Prelude.{List};
    ghost use Rattle.rank_map.specs.Places.{Place};
    ghost use Rattle.server_index.specs.Tables.{placed, IsTable};

    ghost Value = { List (Place T) };

    ghost view = { λ t. placed t.slots.items t.index };

    ghost invariant = { λ t. IsTable t.slots.items t.index };
}

impl<T: Drop> Table<T> {
    /// No place, and no memory taken yet.
    pub fn new(alloc: Global) -> Table<T>
        ensures { result ≡ [] }
    {
        Table {
            index: Index::new(alloc),
            slots: Vec::new(alloc),
        }
    }

    /// The item of a key; `None` where it has none.
    pub fn get(&self, key: u64) -> Option<&T>
        ensures { option_map (λ x. x.now) result ≡ item_at self.now key }
    {
        match self.index.get(key) {
            Some(slot) => self.slots[slot].item.as_ref(),
            None => None,
        }
    }

    /// Whether a key has a place, free or with an item.
    pub fn has_place(&self, key: u64) -> bool
        ensures { result ≡ has_place self.now key }
    {
        self.index.get(key).is_some()
    }

    /// Makes a free place for a key, where it has none; a refusal, with `NoMemory`, changes nothing. Where the key has a place it takes no
    /// memory. Else it takes four bytes for each number up to the key's among those with the same higher bits, once, and a list that is
    /// full, of these or of the slots, moves to one that is twice as long, or as long as is asked.
    pub fn reserve(&mut self, key: u64) -> Result<(), NoMemory>
        requires few { key < 2 ^ 40 }
        ensures place { OnOk result (self.new ≡ with_free self.old key) }
        ensures had_place { has_place self.old key ≡ true → IsOk result }
        ensures refused { OnErr result (self.new ≡ self.old) }
    {
        if self.index.get(key).is_some() {
            return Ok(());
        }
        self.slots.reserve(1)?;
        let slot = self.slots.len();
        self.index.add(key, slot)?;
        self.slots.push_reserved(Slot { key, item: None });
        Ok(())
    }

    /// Puts an item at a key's place, and answers the one that stood there. There is such a place.
    pub fn insert(&mut self, key: u64, item: T) -> Option<T>
        requires place { has_place self.old key ≡ true }
        ensures item { result ≡ item_at self.old key }
        ensures places { self.new ≡ with_place self.old key (Some (Some item)) }
    {
        let Some(slot) = self.index.get(key) else {
            unreachable!()
        };
        mem::replace(&mut self.slots[slot].item, Some(item))
    }

    /// Takes the item from a key's place, which is free afterwards. There is such a place.
    pub fn take(&mut self, key: u64) -> Option<T>
        requires place { has_place self.old key ≡ true }
        ensures item { result ≡ item_at self.old key }
        ensures places { self.new ≡ with_place self.old key (Some None) }
    {
        let Some(slot) = self.index.get(key) else {
            unreachable!()
        };
        self.slots[slot].item.take()
    }
}
