//! The tree behind the map.

ghost use Rattle.std.specs.Prelude.{◌≡◌, ◌+◌, ◌^◌, ◌<◌, ◌≤◌, [], ◌∷◌, ◌++◌, true, false, None, Some, length, option_map, slice_get, IsTrue, IfOk, OnOk, OnErr};
ghost use Rattle.rank_map.specs.Places.{place_at, has_place, item_in, item_at, with_place, count_of, entries, Rises};

use crate::block::{Block, count_of};
use crate::map::KEYS;
use fr_base::NoMemory;
use std::alloc::Global;
use std::marker::Model;
use std::mem;

// Places by rising key.
#[cycle(tree)]
#[derive(Drop)]
pub(crate) struct Tree<T> {
    node: Node<T>,
}

#[cycle(tree)]
#[derive(Drop)]
enum Node<T> {
    // No place, which is so only of a whole tree.
    Empty,
    // never without a place
    Leaf(Block<T>),
    Fork(Box<Fork<T>>),
}

// The places below the middle, and those from there on. All keys are among those from `from` on and below `to`: these are the keys
// that have their higher bits in common, and in the middle the next bit turns.
#[cycle(tree)]
#[derive(Drop)]
struct Fork<T> {
    from: u64,
    middle: u64,
    to: u64,
    // how many items there are in both
    count: usize,
    low: Tree<T>,
    high: Tree<T>,
}

impl<T> Model for Tree<T> {
    ghost use Rattle.std.specs.Prelude.{List, length};
    ghost use Rattle.rank_map.specs.Places.{Place};

    ghost Value = { List (Place T) };

    ghost use Rattle.rank_map.specs.Nodes.{places_in, IsNode};
    ghost use Rattle.std.proofs.Common.{arith, length-append};

    ghost view = { λ a. places_in a.node };

    ghost invariant = { λ a. IsNode a.node };

    ghost size = { length };

    ghost size_decreases = { λ a h. Prim.grind (arith, length-append) };
}

// The number above `low` and not above `high` that has the most zeros at its end.
fn middle(low: u64, high: u64) -> u64
    requires { low < high }
    ensures above { low < result }
    ensures within { result ≤ high }
{
    let mut middle = high;
    'zeros: while middle & (middle - 1) > low {
        middle = middle & (middle - 1);
    }
    middle
}

// The tree of one free place.
fn make_leaf<T: Drop>(alloc: Global, key: u64) -> Result<Tree<T>, NoMemory>
    requires few { key < 2 ^ 40 }
    ensures { IfOk result (λ tree. tree ≡ record { key = key; item = None } ∷ []) }
{
    let mut block = Block::new(alloc, key)?;
    block.reserve(key);
    Ok(Tree {
        node: Node::Leaf(block),
    })
}

// The keys that have the bits above the middle's last one in common, from the first on and below the second: at least those from `from` on
// and below `to`.
fn around(middle: u64, from: u64, to: u64) -> (u64, u64)
    requires above { 0 < middle }
    requires few { middle ≤ 2 ^ 40 }
    requires bound { to ≤ 2 ^ 40 }
    ensures from { result.0 ≤ from }
    ensures to { to ≤ result.1 }
    ensures fits { result.1 ≤ 2 ^ 40 }
{
    let lower = middle & (middle - 1);
    let upper = middle + (middle - lower);
    (lower.min(from), upper.max(to).min(KEYS))
}

impl<T: Drop> Tree<T> {
    // No place.
    pub(crate) fn new() -> Tree<T>
        ensures { result ≡ [] }
    {
        Tree { node: Node::Empty }
    }

    // Whether there is no place.
    fn is_empty(&self) -> bool
        ensures none { IsTrue result → self.now ≡ [] }
        ensures some { result ≡ false → 0 < length self.now }
    {
        matches!(&self.node, Node::Empty)
    }

    // How many items there are.
    pub(crate) fn len(&self) -> usize
        ensures { result ≡ length (entries self.now) }
    {
        match &self.node {
            Node::Empty => 0,
            Node::Leaf(block) => block.len(),
            Node::Fork(fork) => fork.count,
        }
    }

    // The place of a key: its item, or none.
    pub(crate) fn place(&self, key: u64) -> Option<&Option<T>>
        ensures { option_map (λ x. x.now) result ≡ place_at self.now key }
    {
        match &self.node {
            Node::Empty => None,
            Node::Leaf(block) => block.place(key),
            Node::Fork(fork) => {
                let fork = &**fork;
                if key < fork.middle {
                    fork.low.place(key)
                } else {
                    fork.high.place(key)
                }
            }
        }
    }

    // The key of the item at that place among the items.
    pub(crate) fn nth(&self, at: usize) -> Option<u64>
        ensures { result ≡ option_map (λ e. e.key) (slice_get (entries self.now) at) }
    {
        match &self.node {
            Node::Empty => None,
            Node::Leaf(block) => block.nth(at),
            Node::Fork(fork) => {
                let fork = &**fork;
                let below = fork.low.len();
                if at < below {
                    fork.low.nth(at)
                } else {
                    fork.high.nth(at - below)
                }
            }
        }
    }

    // Makes a free place for a key that has none; a refusal changes nothing.
    pub(crate) fn reserve(&mut self, alloc: Global, key: u64) -> Result<(), NoMemory>
        requires few { key < 2 ^ 40 }
        requires new { has_place self.old key ≡ false }
        ensures places { OnOk result (self.new ≡ with_place self.old key (Some None)) }
        ensures refused { OnErr result (self.new ≡ self.old) }
    {
        match &mut self.node {
            Node::Empty => {
                *self = make_leaf(alloc, key)?;
                Ok(())
            }
            Node::Leaf(block) => {
                let (from, to) = block.range();
                if key < from {
                    self.add_below(alloc, key, from, to)
                } else if to <= key {
                    self.add_above(alloc, key, from, to)
                } else {
                    block.reserve(key);
                    Ok(())
                }
            }
            Node::Fork(fork) => {
                let fork = &mut **fork;
                let (from, to) = (fork.from, fork.to);
                if key < from {
                    self.add_below(alloc, key, from, to)
                } else if to <= key {
                    self.add_above(alloc, key, from, to)
                } else if key < fork.middle {
                    fork.low.reserve(alloc, key)
                } else {
                    fork.high.reserve(alloc, key)
                }
            }
        }
    }

    // The same of a key below all places, which are from `from` on and below `to`.
    fn add_below(&mut self, alloc: Global, key: u64, from: u64, to: u64) -> Result<(), NoMemory>
        requires below { key < from }
        requires bound { to ≤ 2 ^ 40 }
        requires rises { Rises from to self.old }
        requires some { 0 < length self.old }
        ensures places { OnOk result (self.new ≡ with_place self.old key (Some None)) }
        ensures refused { OnErr result (self.new ≡ self.old) }
    {
        let low = make_leaf(alloc, key)?;
        let middle = middle(key, from);
        let (from, to) = around(middle, key, to);
        let count = self.len();
        let high = mem::replace(self, Tree::new());
        let fork = Fork {
            from,
            middle,
            to,
            count,
            low,
            high,
        };
        match Box::new(alloc, fork) {
            Ok(fork) => {
                self.node = Node::Fork(fork);
                Ok(())
            }
            Err(failed) => {
                let fork = failed.value;
                *self = fork.high;
                Err(NoMemory)
            }
        }
    }

    // The same of a key above all of them.
    fn add_above(&mut self, alloc: Global, key: u64, from: u64, to: u64) -> Result<(), NoMemory>
        requires above { to ≤ key }
        requires few { key < 2 ^ 40 }
        requires rises { Rises from to self.old }
        requires some { 0 < length self.old }
        ensures places { OnOk result (self.new ≡ with_place self.old key (Some None)) }
        ensures refused { OnErr result (self.new ≡ self.old) }
    {
        let high = make_leaf(alloc, key)?;
        let middle = middle(to - 1, key);
        let (from, to) = around(middle, from, key + 1);
        let count = self.len();
        let low = mem::replace(self, Tree::new());
        let fork = Fork {
            from,
            middle,
            to,
            count,
            low,
            high,
        };
        match Box::new(alloc, fork) {
            Ok(fork) => {
                self.node = Node::Fork(fork);
                Ok(())
            }
            Err(failed) => {
                let fork = failed.value;
                *self = fork.low;
                Err(NoMemory)
            }
        }
    }

    // Another item at a key that has a place, or none, in exchange for the one that is there.
    pub(crate) fn swap(&mut self, key: u64, item: &mut Option<T>)
        requires place { has_place self.old key ≡ true }
        ensures item { item.new ≡ item_at self.old key }
        ensures places { self.new ≡ with_place self.old key (Some item.old) }
    {
        match &mut self.node {
            Node::Empty => unreachable!(),
            Node::Leaf(block) => block.swap(key, item),
            Node::Fork(fork) => {
                let fork = &mut **fork;
                let more = count_of(item);
                if key < fork.middle {
                    fork.low.swap(key, item);
                    fork.count = fork.count + more - count_of(item);
                } else {
                    fork.high.swap(key, item);
                    fork.count = fork.count + more - count_of(item);
                }
            }
        }
    }

    // Takes a key's place out, and its item. There is such a place.
    pub(crate) fn remove(&mut self, key: u64, item: &mut Option<T>)
        requires place { has_place self.old key ≡ true }
        ensures item { item.new ≡ item_at self.old key }
        ensures places { self.new ≡ with_place self.old key None }
    {
        match &mut self.node {
            Node::Empty => unreachable!(),
            Node::Leaf(block) => {
                block.remove(key, item);
                if block.is_empty() {
                    self.node = Node::Empty;
                }
            }
            Node::Fork(fork) => {
                let fork = &mut **fork;
                if key < fork.middle {
                    fork.low.remove(key, item);
                    if fork.low.is_empty() {
                        let rest = mem::replace(&mut fork.high, Tree::new());
                        *self = rest;
                    } else {
                        fork.count -= count_of(item);
                    }
                } else {
                    fork.high.remove(key, item);
                    if fork.high.is_empty() {
                        let rest = mem::replace(&mut fork.low, Tree::new());
                        *self = rest;
                    } else {
                        fork.count -= count_of(item);
                    }
                }
            }
        }
    }
}
