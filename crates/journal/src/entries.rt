//! The journal: what every event did, event after event.

ghost use Rattle.std.specs.Prelude.{◌≡◌, ◌+◌, ◌≤◌, ◌<◌, ◌++◌, [], ◌∷◌, length, slice_get, IsOk, OnOk, OnErr, option_copied};
ghost use Rattle.journal.specs.Journals.{NamesItsThread};

use crate::entry::Entry;
use fr_base::{List, NoMemory};
use std::alloc::Global;
use std::marker::Model;

/// The entries of a run, in order. An entry whose event did a plain step names its thread. Contracts see the list, and beside it
/// how many more entries fit without memory.
#[derive(Debug, Drop)]
pub struct Journal {
    entries: List<Entry>,
}

impl Model for Journal {
    ghost use Rattle.std.specs.Prelude.{All};
    ghost use Rattle.fr_base.specs.Rooms.{WithRoom};
    ghost use Rattle.journal.specs.View.{EntryView};
    ghost use Rattle.journal.specs.Journals.{NamesItsThread};

    ghost Value = { WithRoom EntryView };

    ghost view = { λ j. j.entries };

    ghost invariant = { λ j. All NamesItsThread j.entries.items };
}

impl Journal {
    /// No entry, and no memory taken yet.
    pub fn new(alloc: Global) -> Journal
        ensures { result.items ≡ [] }
    {
        Journal {
            entries: List::new(alloc),
        }
    }

    /// Makes room, so that the next `n` pushes can't be refused; a refusal changes nothing.
    pub fn reserve(&mut self, n: usize) -> Result<(), NoMemory>
        ensures items { self.new.items ≡ self.old.items }
        ensures room { OnOk result (n ≤ self.new.spare) }
        ensures had_room { n ≤ self.old.spare → IsOk result }
        ensures spare { self.old.spare ≤ self.new.spare }
        ensures refused { OnErr result (self.new ≡ self.old) }
    {
        self.entries.reserve(n)
    }

    /// Adds an entry at the end, which names its thread where its event did a plain step. With room it can't be refused; a
    /// refusal changes nothing.
    pub fn push(&mut self, entry: Entry) -> Result<(), NoMemory>
        requires names { NamesItsThread entry }
        ensures pushed { OnOk result (self.new.items ≡ self.old.items ++ entry ∷ []) }
        ensures spare { OnOk result (self.old.spare ≤ self.new.spare + 1) }
        ensures room { 0 < self.old.spare → IsOk result }
        ensures refused { OnErr result (self.new ≡ self.old) }
    {
        self.entries.push(entry)
    }

    /// Moves the entries of another journal behind those that are there, in order. A refusal leaves both as they are. It takes time linear in the
    /// entries that move, and also in those that are there where more room is to be made.
    pub fn append(&mut self, other: &mut Journal) -> Result<(), NoMemory>
        ensures items { OnOk result (self.new.items ≡ self.old.items ++ other.old.items) }
        ensures emptied { OnOk result (other.new.items ≡ []) }
        ensures had_room { length other.old.items ≤ self.old.spare → IsOk result }
        ensures refused { OnErr result ((self.new.items ≡ self.old.items) × (other.new.items ≡ other.old.items)) }
    {
        self.entries.append(&mut other.entries)
    }

    /// How many entries there are.
    pub fn len(&self) -> u64
        ensures { result ≡ length self.now.items }
    {
        self.entries.len()
    }

    /// The entry at that place, from 0; `None` exactly past the end.
    pub fn entry(&self, at: u64) -> Option<&Entry>
        ensures { option_copied result ≡ slice_get self.now.items at }
    {
        self.entries.at(at)
    }

    /// The entries in order.
    pub fn as_slice(&self) -> &[Entry]
        ensures { result.now ≡ self.now.items }
    {
        self.entries.as_slice()
    }
}
