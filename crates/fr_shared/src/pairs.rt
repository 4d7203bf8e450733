//! The pairs of threads whose parents wait for both.

ghost use Rattle.std.specs.Prelude.{◌≡◌, ◌+◌, ◌<◌, ◌≤◌, ◌∷◌, [], None, OnOk};
ghost use Rattle.fr_plain.specs.MachineThreads.{pair_of, without_pair};
ghost use Rattle.fr_shared.specs.PairInside.{pair_from, two_from};

use fr_base::{NoMemory, ThreadNo};
use indexmap::IndexMap;
use std::alloc::Global;
use std::marker::Model;

/// Two threads that were started together.
#[derive(Clone, Copy)]
pub struct Two {
    pub first: ThreadNo,
    pub second: ThreadNo,
}

/// The two threads for which each waiting parent waits, found by the parent's number. A look-up takes no time in the number
/// of pairs, and where a pair goes those that were started later move up.
/// Contracts see them as the plain machine has them, the newest first, and beside them how many more fit without memory.
#[derive(Drop)]
pub struct Pairs {
    twos: IndexMap<u64, Two>,
}

impl Model for Pairs {
    ghost use Rattle.fr_shared.specs.PairRoom.{PairRoom};
    ghost use Rattle.fr_shared.specs.PairInside.{pairs_view, AreApart};

    ghost Value = { PairRoom };

    ghost view = { pairs_view };

    ghost invariant = { λ p. AreApart p.twos.entries };
}

impl Pairs {
    /// No parent waits, and no memory is taken yet.
    pub fn new(alloc: Global) -> Pairs
        ensures { result.pairs ≡ [] }
    {
        Pairs {
            twos: IndexMap::new(alloc),
        }
    }

    /// Makes room for one pair more; a refusal changes no pair.
    pub fn reserve(&mut self) -> Result<(), NoMemory>
        ensures pairs { self.new.pairs ≡ self.old.pairs }
        ensures room { OnOk result (0 < self.new.spare) }
        ensures spare { self.old.spare ≤ self.new.spare }
    {
        match self.twos.reserve(1) {
            Ok(()) => Ok(()),
            Err(_) => Err(NoMemory),
        }
    }

    /// The two threads for which this parent waits, where it waits for a pair.
    pub fn of(&self, parent: ThreadNo) -> Option<Two>
        ensures { two_from parent result ≡ pair_of self.now.pairs parent }
    {
        // The check asks that each type inside a pair is named where it is moved.
        let _inside: Option<ThreadNo> = None;
        match self.twos.get(&parent.number()) {
            Some(two) => Some(*two),
            None => None,
        }
    }

    /// A parent that waits for no pair waits for these two.
    pub fn add(&mut self, parent: ThreadNo, two: Two)
        requires new { pair_of self.old.pairs parent ≡ None }
        requires room { 0 < self.old.spare }
        ensures pairs { self.new.pairs ≡ pair_from parent two ∷ self.old.pairs }
        ensures spare { self.old.spare ≤ self.new.spare + 1 }
    {
        let _inside: Option<ThreadNo> = None;
        match self.twos.insert(parent.number(), two) {
            Ok(_) => {}
            Err(_) => unreachable!(),
        }
    }

    /// The parent waits for no pair any more.
    pub fn remove(&mut self, parent: ThreadNo)
        ensures pairs { self.new.pairs ≡ without_pair self.old.pairs parent }
        ensures spare { self.old.spare ≤ self.new.spare }
    {
        let _inside: Option<ThreadNo> = None;
        self.twos.shift_remove(&parent.number());
    }
}
