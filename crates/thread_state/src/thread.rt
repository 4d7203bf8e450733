//! A thread at its server.

ghost use Rattle.std.specs.Prelude.{◌≡◌, ◌+◌, ◌<◌, ◌≤◌, ◌-◌, IsOk, OnOk, OnErr, vec_len};
ghost use Rattle.std.specs.Vec.{vec_capacity};
ghost use Rattle.thread_state.specs.View.{new_thread};

use crate::phase::Phase;
use crate::value::Value;
use fr_base::{NoMemory, ThreadNo};
use global_addr::Word;
use heap_partition::Owned;
use std::alloc::Global;
use std::marker::Model;

/// A thread. Contracts see each field, its three lists as lists, and beside them how many more items fit in each of the
/// three without memory.
#[derive(Drop)]
pub struct Thread {
    pub number: ThreadNo,
    /// The next instruction.
    pub pc: u32,
    /// Its variables, the first one first.
    pub slots: Vec<Value>,
    /// Values under way between two instructions, the last one on top.
    pub temps: Vec<Value>,
    pub phase: Phase,
    /// How many hops of the present write are made ready.
    pub passed: u8,
    /// The cached words that the present step uses.
    pub walk: Vec<Word>,
    /// What a lock, a dup or a join was answered, until the step takes it.
    pub gift: Option<Owned>,
    /// How many objects it has made.
    pub made: u64,
    /// It came here by a migration, and has done no plain step since.
    pub moved_since_step: bool,
    /// The server that started it, which keeps its result.
    pub home: u8,
}

impl Model for Thread {
    ghost use Rattle.std.specs.Prelude.{vec_len, ◌-◌, min};
    ghost use Rattle.std.specs.Vec.{vec_capacity};
    ghost use Rattle.thread_state.specs.View.{ThreadView};

    ghost Value = { ThreadView };

    ghost view = { λ t. record {
      state = record {
        number = t.number;
        pc = t.pc;
        slots = t.slots.items;
        temps = t.temps.items;
        phase = t.phase;
        passed = t.passed;
        walk = t.walk.items;
        gift = t.gift;
        made = t.made;
        moved_since_step = t.moved_since_step;
        home = t.home;
      };
      room = min (vec_capacity t.slots - vec_len t.slots) (min (vec_capacity t.temps - vec_len t.temps) (vec_capacity t.walk - vec_len t.walk));
    } };
}

// How many more items fit without memory.
fn room<T>(items: &Vec<T>) -> usize
    ensures { result ≡ vec_capacity items.now - vec_len items.now }
{
    items.capacity() - items.len()
}

impl Thread {
    /// A thread that is ready at the instruction `pc`, with these variables and nothing else. It takes no memory.
    pub fn new(alloc: Global, number: ThreadNo, pc: u32, slots: Vec<Value>) -> Thread
        ensures { result.state ≡ new_thread number pc slots.items }
    {
        Thread {
            number,
            pc,
            slots,
            temps: Vec::new(alloc),
            phase: Phase::Ready,
            passed: 0,
            walk: Vec::new(alloc),
            gift: None,
            made: 0,
            moved_since_step: false,
            home: number.server(),
        }
    }

    /// Makes room for `n` more items in each of `slots`, `temps` and `walk`; a refusal changes nothing.
    pub fn reserve(&mut self, n: usize) -> Result<(), NoMemory>
        ensures state { self.new.state ≡ self.old.state }
        ensures room { OnOk result (n ≤ self.new.room) }
        ensures had_room { n ≤ self.old.room → IsOk result }
        ensures spare { self.old.room ≤ self.new.room }
        ensures refused { OnErr result (self.new ≡ self.old) }
    {
        // The list with the least room comes last, so that the room that is seen stays as it was where it is refused.
        let least = room(&self.slots)
            .min(room(&self.temps))
            .min(room(&self.walk));
        if least < room(&self.slots) {
            self.slots.reserve(n)?;
        }
        if least < room(&self.temps) {
            self.temps.reserve(n)?;
        }
        if least < room(&self.walk) {
            self.walk.reserve(n)?;
        }
        self.slots.reserve(n)?;
        self.temps.reserve(n)?;
        self.walk.reserve(n)?;
        Ok(())
    }
}
