//! Calls in an order that is drawn: each word that the partition gives, and each tint, is compared with all before it.

ghost use Rattle.std.specs.Prelude.{◌≡◌, ◌<◌, ◌≤◌, vec_len, IfSome};
ghost use Rattle.owner_box.specs.Partition.{started};

use crate::answers::first_wrong;
use fr_base::{NoMemory, ObjNo, ThreadNo};
use global_addr::Word;
use heap_partition::{Cell, Owned};
use owner_box::{Partition, fresh_law, runs_law};
use rand_core::utils::NextWord;
use rand_pcg::Lcg64Xsh32;
use std::alloc::Global;
use std::test::Fail;

// A partition, the words by which its live objects are known, and all words that were ever issued.
#[derive(Drop)]
struct Trial {
    partition: Partition,
    live: Vec<Word>,
    issued: Vec<Word>,
    again: u32,
    renewed: u32,
    tinted: u32,
}

fn cell(number: u32) -> Cell {
    Cell {
        object: ObjNo {
            thread: ThreadNo::new(0, 0),
            count: u64::from(number),
        },
        value: Owned::Int(i64::from(number)),
    }
}

impl Trial {
    fn new(alloc: Global, limit: u32) -> Trial
        requires { (1 ≤ limit) × (limit ≤ 65536) }
    {
        Trial {
            partition: Partition::new(alloc, 3, limit),
            live: Vec::new(alloc),
            issued: Vec::new(alloc),
            again: 0,
            renewed: 0,
            tinted: 0,
        }
    }

    // Notes a word, and whether it was there before.
    fn issue(&mut self, word: Word) -> Result<(), NoMemory> {
        if self.issued.contains(&word) {
            self.again = self.again.saturating_add(1);
        }
        self.issued.push(word)?;
        Ok(())
    }

    // A place among the live objects.
    fn place(&self, drawn: u32) -> Option<usize>
        ensures { IfSome result (λ at. at < vec_len self.now.live) }
    {
        if self.live.is_empty() {
            None
        } else {
            Some(drawn as usize % self.live.len())
        }
    }

    fn make(&mut self, number: u32) -> Result<(), NoMemory> {
        self.partition.reserve(1)?;
        if self.partition.next() < 1_099_511_627_776 {
            let word = self.partition.make(cell(number));
            self.issue(word)?;
            self.live.push(word)?;
        }
        Ok(())
    }

    // The live object at that place gets its next colour, or now and then the last one; the partition knows nothing of it.
    fn tint(&mut self, at: usize, drawn: u32) -> Result<(), NoMemory>
        requires { at < vec_len self.old.live }
    {
        let word = self.live[at];
        let limit = self.partition.limit();
        if !self.partition.leads_to(word) {
            return Ok(());
        }
        if let Some(next) = word.next_colour(limit) {
            let last = Word::pack((limit - 1) as u16, word.server(), word.address());
            let tint = if drawn % 16 == 0 { last } else { next };
            self.live[at] = tint;
            self.issue(tint)?;
            self.tinted = self.tinted.saturating_add(1);
        }
        Ok(())
    }

    fn renew(&mut self, at: usize) -> Result<(), NoMemory>
        requires { at < vec_len self.old.live }
    {
        let word = self.live[at];
        self.partition.reserve(1)?;
        let last = u32::from(word.colour()) + 1 == self.partition.limit();
        if last && self.partition.leads_to(word) && self.partition.next() < 1_099_511_627_776 {
            let new = self.partition.renew(word);
            self.live[at] = new;
            self.issue(new)?;
            self.renewed = self.renewed.saturating_add(1);
        }
        Ok(())
    }

    // The object at that place gets a value, which is there afterwards.
    fn store(&mut self, at: usize, number: u32) -> bool
        requires { at < vec_len self.old.live }
    {
        let word = self.live[at];
        if !self.partition.leads_to(word) {
            return false;
        }
        self.partition.store(word, Owned::Int(i64::from(number)));
        self.partition.leads_to(word)
            && self.partition.look(word).value == Owned::Int(i64::from(number))
    }

    fn drop(&mut self, at: usize, gives: bool) -> bool
        requires { at < vec_len self.old.live }
    {
        let word = self.live.swap_remove(at);
        if !self.partition.leads_to(word) {
            return false;
        }
        if gives {
            self.partition.give(word);
        } else {
            self.partition.free(word);
        }
        !self.partition.leads_to(word)
    }

    // One call, by what is drawn; whether it did what it should.
    fn step(&mut self, kind: u32, drawn: u32, number: u32) -> Result<bool, NoMemory> {
        let Some(at) = self.place(drawn) else {
            self.make(number)?;
            return Ok(true);
        };
        match kind {
            0 | 1 => self.make(number)?,
            2 | 3 => self.tint(at, drawn)?,
            4 => self.renew(at)?,
            5 => return Ok(self.store(at, number)),
            6 => return Ok(self.drop(at, true)),
            _ => return Ok(self.drop(at, false)),
        }
        Ok(true)
    }
}

// How many of four thousand calls did what they shouldn't.
fn wrong_calls(trial: &mut Trial, limit: u32) -> Result<u32, NoMemory> {
    let mut generator = Lcg64Xsh32::new(u64::from(limit), 54);
    let mut wrong = 0u32;
    for number in 0..4_000 {
        let kind = generator.next_word() % 8;
        let drawn = generator.next_word();
        if !trial.step(kind, drawn, number)? {
            wrong = wrong.saturating_add(1);
        }
    }
    Ok(wrong)
}

// Whether each call did what it should, no word was issued twice, and many were issued, renewed and tinted.
fn is_right(trial: &mut Trial, limit: u32) -> Result<bool, NoMemory> {
    let wrong = wrong_calls(trial, limit)?;
    Ok(
        wrong == 0
            && trial.again == 0
            && trial.issued.len() > 1_400
            && trial.renewed > 15
            && (limit == 1 || trial.tinted > 100),
    )
}

// The same at that limit.
fn right_at(alloc: Global, limit: u32) -> Result<bool, NoMemory>
    requires { (1 ≤ limit) × (limit ≤ 65536) }
{
    let mut trial = Trial::new(alloc, limit);
    is_right(&mut trial, limit)
}

#[test]
fn issues_no_word_twice(rt: HostRuntime) -> Result<(), Fail> {
    let alloc = rt.alloc();
    let right = [
        right_at(alloc, 1)?,
        right_at(alloc, 2)?,
        right_at(alloc, 3)?,
        right_at(alloc, 65_536)?,
    ];
    assert_eq!(rt; first_wrong(&right), None);
    Ok(())
}

// A word's colour, server and address.
fn parts(word: Word) -> (u16, u8, u64) {
    (word.colour(), word.server(), word.address())
}

// The number of the first wrong answer. An object is made, another one is made in its place when it was given, and renewed at the last
// colour: the addresses and colours by hand.
fn wrong_colour(partition: &mut Partition) -> Result<Option<usize>, NoMemory>
    requires state { partition.old.state ≡ started 1 2 }
{
    partition.reserve(4)?;
    let first = partition.make(cell(1));
    if !partition.leads_to(first) {
        return Ok(Some(8));
    }
    let given = partition.give(first);
    let used = partition.next();
    let second = partition.make(cell(2));
    if !partition.leads_to(second) {
        return Ok(Some(9));
    }
    let made = (partition.limit(), partition.next());
    let third = partition.renew(second);
    if !partition.leads_to(third) {
        return Ok(Some(10));
    }
    let right = [
        parts(first) == (0, 1, 0),
        given == cell(1),
        used == 1,
        parts(second) == (1, 1, 0),
        made == (2, 1),
        parts(third) == (0, 1, 1),
        partition.retired() == 1,
        partition.look(third) == cell(2),
    ];
    partition.tidy();
    Ok(first_wrong(&right))
}

#[test]
fn goes_through_the_colours(rt: HostRuntime) -> Result<(), Fail> {
    let mut partition = Partition::new(rt.alloc(), 1, 2);
    assert_eq!(rt; wrong_colour(&mut partition)?, None);
    fresh_law();
    runs_law();
    Ok(())
}
