//! The map.

ghost use Rattle.std.specs.Prelude.{◌≡◌, ◌<◌, ◌^◌, true, [], None, Some, length, option_map, slice_get, IsOk, OnOk, OnErr};
ghost use Rattle.rank_map.specs.Places.{has_place, item_at, with_place, with_free, entries};

use crate::tree::Tree;
use fr_base::NoMemory;
use std::alloc::Global;
use std::marker::Model;

/// Keys are below this number.
pub(crate) const KEYS: u64 = 1 << 40;

/// Items by key, in the order of their keys; keys are below 2^40. An item stands at a place, and only making a place takes memory.
/// Contracts see the places by rising key, each free or with its item.
///
/// A call takes at most as many steps as a key has higher bits, 36, and some six where a thousand keys stand side by side, and `nth`
/// sixteen more; `len` takes one. No item is moved but the one that comes or goes.
///
/// Sixteen keys that stand side by side have one block of memory, with room for an item of each: it is taken with the first of their
/// places, and given back with the last. (A trie by the higher bits of the keys, which counts its items at each fork. A fork stands only
/// where keys part, so there is one fewer than there are blocks.)
#[derive(Drop)]
pub struct RankMap<T> {
    tree: Tree<T>,
    alloc: Global,
}

impl<T> Model for RankMap<T> {
    ghost use Rattle.std.specs.Prelude.{List};
    ghost use Rattle.rank_map.specs.Places.{Place};

    ghost Value = { List (Place T) };

    ghost view = { λ m. m.tree };
}

impl<T: Drop> RankMap<T> {
    /// No place, and no memory taken yet.
    pub fn new(alloc: Global) -> RankMap<T>
        ensures { result ≡ [] }
    {
        RankMap {
            tree: Tree::new(),
            alloc,
        }
    }

    /// How many items there are.
    pub fn len(&self) -> usize
        ensures { result ≡ length (entries self.now) }
    {
        self.tree.len()
    }

    /// The item of a key; `None` where it has none.
    pub fn get(&self, key: u64) -> Option<&T>
        ensures { option_map (λ x. x.now) result ≡ item_at self.now key }
    {
        match self.tree.place(key) {
            Some(place) => place.as_ref(),
            None => None,
        }
    }

    /// Whether a key has a place, free or with an item.
    pub fn has_place(&self, key: u64) -> bool
        ensures { result ≡ has_place self.now key }
    {
        self.tree.place(key).is_some()
    }

    /// The key of the item that stands at that place, from 0, among the items by rising key; `None` exactly past the end.
    pub fn nth(&self, at: usize) -> Option<u64>
        ensures { result ≡ option_map (λ e. e.key) (slice_get (entries self.now) at) }
    {
        self.tree.nth(at)
    }

    /// Makes a free place for a key, where it has none; a refusal changes nothing. It takes no memory where the key's block is there.
    pub fn reserve(&mut self, key: u64) -> Result<(), NoMemory>
        requires few { key < 2 ^ 40 }
        ensures place { OnOk result (self.new ≡ with_free self.old key) }
        ensures had_place { has_place self.old key ≡ true → IsOk result }
        ensures refused { OnErr result (self.new ≡ self.old) }
    {
        if self.has_place(key) {
            return Ok(());
        }
        self.tree.reserve(self.alloc, key)
    }

    /// Puts an item at a key's place, and answers the one that stood there. There is such a place.
    pub fn insert(&mut self, key: u64, item: T) -> Option<T>
        requires place { has_place self.old key ≡ true }
        ensures item { result ≡ item_at self.old key }
        ensures places { self.new ≡ with_place self.old key (Some (Some item)) }
    {
        let mut standing = Some(item);
        self.tree.swap(key, &mut standing);
        standing
    }

    /// Takes the item from a key's place, which is free afterwards. There is such a place.
    pub fn take(&mut self, key: u64) -> Option<T>
        requires place { has_place self.old key ≡ true }
        ensures item { result ≡ item_at self.old key }
        ensures places { self.new ≡ with_place self.old key (Some None) }
    {
        let mut standing = None;
        self.tree.swap(key, &mut standing);
        standing
    }

    /// Takes a key's place out with its item. The last place of a block gives its memory back. There is such a place.
    pub fn remove(&mut self, key: u64) -> Option<T>
        requires place { has_place self.old key ≡ true }
        ensures item { result ≡ item_at self.old key }
        ensures places { self.new ≡ with_place self.old key None }
    {
        let mut standing = None;
        self.tree.remove(key, &mut standing);
        standing
    }
}
