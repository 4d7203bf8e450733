//! Whether a journal is legal.

ghost use Rattle.std.specs.Prelude.{◌≡◌, ◌<◌, true, None, OnOk, IfOk, IfErr};
ghost use Rattle.coloured_heap.specs.Heap.{Coloured, start};
ghost use Rattle.coloured_heap.specs.Changes.{stored, with_new_mutex};
ghost use Rattle.coloured_heap.specs.Legal.{acts_after, entry_after, first_illegal, illegal_from, is_new_name, is_placed, with_mutex};
ghost use Rattle.coloured_heap.specs.Figures.{by_kind};
ghost use Rattle.coloured_heap.specs.Tables.{Shows, Leads};
ghost use Rattle.coloured_heap.specs.Refused.{Blames};

use crate::bag::Bag;
use crate::fault::LegalError;
use crate::keys::Wish;
use crate::messages::message_counts;
use crate::tables::{Stand, Tables};
use fr_base::{Fresh, NoMemory, Options};
use fr_tally::Tally;
use indexmap::{IndexMap, IndexSet};
use journal::{Entry, Journal};
use std::alloc::Global;

impl Tables {
    // The start: the main thread alone, at server 0.
    fn new(alloc: Global) -> Result<Tables, NoMemory>
        ensures { IfOk result (λ tables. Shows ⟦<Wish as PartialEq>⟧.eq tables start) }
    {
        let mut threads = IndexMap::new(alloc);
        let main = Stand {
            server: 0,
            has_ended: false,
        };
        match threads.insert(0, main) {
            Ok(_) => {}
            Err(_) => return Err(NoMemory),
        }
        Ok(Tables {
            objects: IndexMap::new(alloc),
            cached: IndexSet::new(alloc),
            served: Bag::new(alloc),
            issued: IndexSet::new(alloc),
            threads,
            wishes: Bag::new(alloc),
            mutexes: IndexMap::new(alloc),
        })
    }

    // Whether the entry is of a server of the run, and its thread stands there.
    fn is_placed(&self, options: &Options, entry: &Entry) -> bool
        ensures placed { (s : Coloured) → Shows ⟦<Wish as PartialEq>⟧.eq self.now s → result ≡ is_placed options.now s entry.now }
        ensures servers { result ≡ true → 0 < options.now.servers }
    {
        if entry.server >= options.servers {
            return false;
        }
        match entry.thread {
            Some(thread) => match self.thread(thread) {
                Some(stand) => stand.server == entry.server,
                None => false,
            },
            None => true,
        }
    }

    // Takes the acts of an entry, one after another; whether each is allowed.
    fn take_acts(&mut self, options: &Options, entry: &Entry) -> Result<bool, NoMemory>
        requires servers { 0 < options.now.servers }
        ensures { IfOk result (λ legal. (s : Coloured) → Shows ⟦<Wish as PartialEq>⟧.eq self.old s → Leads ⟦<Wish as PartialEq>⟧.eq self.new legal (acts_after options.now entry.now entry.now.acts s)) }
    {
        'acts: for act in entry.acts.as_slice() {
            if !self.allows(options, entry, act) {
                return Ok(false);
            }
            self.take(entry, act)?;
        }
        Ok(true)
    }

    // Whether a new mutex that the entry names may have that name.
    fn may_name(&self, entry: &Entry) -> bool
        ensures { (s : Coloured) → Shows ⟦<Wish as PartialEq>⟧.eq self.now s → result ≡ is_new_name s entry.now.server entry.now.done }
    {
        match &entry.done {
            Some(Fresh::Mutex(mutex)) => mutex.home == entry.server && self.mutex(mutex).is_none(),
            _ => true,
        }
    }

    // Takes the new mutex that the entry names.
    fn name(&mut self, entry: &Entry) -> Result<(), NoMemory>
        ensures { OnOk result ((s : Coloured) → Shows ⟦<Wish as PartialEq>⟧.eq self.old s → Shows ⟦<Wish as PartialEq>⟧.eq self.new (with_new_mutex entry.now.done s)) }
    {
        match &entry.done {
            Some(Fresh::Mutex(mutex)) => self.add_mutex(mutex),
            _ => Ok(()),
        }
    }

    // Takes the stores, which no rule asks for, and the new mutex of a plain step; whether it may be named.
    fn settle(&mut self, entry: &Entry) -> Result<bool, NoMemory>
        ensures { IfOk result (λ legal. (s : Coloured) → Shows ⟦<Wish as PartialEq>⟧.eq self.old s → Leads ⟦<Wish as PartialEq>⟧.eq self.new legal (with_mutex entry.now (stored entry.now.labels s))) }
    {
        if !self.may_name(entry) {
            return Ok(false);
        }
        self.name(entry)?;
        Ok(true)
    }

    // Takes an entry; whether it breaks no rule.
    fn enter(&mut self, options: &Options, entry: &Entry) -> Result<bool, NoMemory>
        ensures { IfOk result (λ legal. (s : Coloured) → Shows ⟦<Wish as PartialEq>⟧.eq self.old s → Leads ⟦<Wish as PartialEq>⟧.eq self.new legal (entry_after options.now s entry.now)) }
    {
        if !self.is_placed(options, entry) {
            return Ok(false);
        }
        let legal = self.take_acts(options, entry)?;
        if !legal {
            return Ok(false);
        }
        let settled = self.settle(entry)?;
        Ok(settled)
    }

    // Takes the entries of a journal, one after another.
    fn take_entries(&mut self, options: &Options, journal: &Journal) -> Result<(), LegalError>
        ensures legal { OnOk result ((s : Coloured) → Shows ⟦<Wish as PartialEq>⟧.eq self.old s → illegal_from options.now s 0 journal.now.items ≡ None) }
        ensures refused { IfErr result (λ e. (s : Coloured) → Shows ⟦<Wish as PartialEq>⟧.eq self.old s → Blames e (illegal_from options.now s 0 journal.now.items)) }
    {
        let mut place = 0;
        'entries: for entry in journal.as_slice() {
            let legal = match self.enter(options, entry) {
                Ok(legal) => legal,
                Err(_) => return Err(LegalError::NoMemory),
            };
            if !legal {
                return Err(LegalError::IllegalAt { place });
            }
            place += 1;
        }
        Ok(())
    }
}

// Whether a journal is legal, from the start on.
fn check(alloc: Global, journal: &Journal, options: &Options) -> Result<(), LegalError>
    ensures legal { OnOk result (first_illegal options.now journal.now.items ≡ None) }
    ensures refused { IfErr result (λ e. Blames e (first_illegal options.now journal.now.items)) }
{
    match Tables::new(alloc) {
        Ok(mut tables) => tables.take_entries(options, journal),
        Err(_) => Err(LegalError::NoMemory),
    }
}

/// The counts of messages between different servers, by the numbers of their kinds, where the journal is legal. `IllegalAt` comes
/// exactly where it isn't, and names the first entry, from 0, that stands where it may not or breaks the rule of one of its acts.
/// `NoMemory` may come at any time. An act takes constant time on average.
pub fn legal(alloc: Global, journal: &Journal, options: &Options) -> Result<Tally<16>, LegalError>
    ensures legal { OnOk result (first_illegal options.now journal.now.items ≡ None) }
    ensures counts { IfOk result (λ tally. tally ≡ by_kind journal.now.items) }
    ensures illegal { IfErr result (λ e. Blames e (first_illegal options.now journal.now.items)) }
{
    match check(alloc, journal, options) {
        Ok(()) => {}
        Err(error) => return Err(error),
    }
    match message_counts(journal) {
        Ok(tally) => Ok(tally),
        Err(_) => Err(LegalError::NoMemory),
    }
}
