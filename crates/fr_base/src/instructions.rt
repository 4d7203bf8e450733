//! The code of a program.

ghost use Rattle.std.specs.Prelude.{◌≡◌, ◌+◌, ◌≤◌, ◌<◌, ◌++◌, [], ◌∷◌, length, slice_get, IsOk, OnOk, OnErr, option_copied};
ghost use Rattle.fr_base.specs.Code.{with_body, with_other};

use crate::instruction::Instr;
use crate::list::List;
use crate::memory::NoMemory;
use std::alloc::Global;
use std::marker::Model;

/// The instructions of a program, in order. Contracts see the list, and beside it how many more fit without memory.
/// A push takes constant time on average, the other calls always.
#[derive(Debug, Drop)]
pub struct Code {
    instrs: List<Instr>,
}

impl Model for Code {
    ghost use Rattle.fr_base.specs.Rooms.{WithRoom};
    ghost use Rattle.fr_base.specs.declared.instruction.Instr.{Instr};

    ghost Value = { WithRoom Instr };

    ghost view = { λ c. c.instrs };
}

impl Code {
    /// No instruction, and no memory taken yet.
    pub fn new(alloc: Global) -> Code
        ensures { result.items ≡ [] }
    {
        Code {
            instrs: List::new(alloc),
        }
    }

    /// Makes room, so that the next `n` pushes can't be refused; a refusal changes nothing.
    pub fn reserve(&mut self, n: usize) -> Result<(), NoMemory>
        ensures items { self.new.items ≡ self.old.items }
        ensures room { OnOk result (n ≤ self.new.spare) }
        ensures had_room { n ≤ self.old.spare → IsOk result }
        ensures spare { self.old.spare ≤ self.new.spare }
        ensures refused { OnErr result (self.new ≡ self.old) }
    {
        self.instrs.reserve(n)
    }

    /// Adds an instruction at the end. With room it can't be refused; a refusal changes nothing, and drops the instruction.
    pub fn push(&mut self, instr: Instr) -> Result<(), NoMemory>
        ensures pushed { OnOk result (self.new.items ≡ self.old.items ++ instr ∷ []) }
        ensures spare { OnOk result (self.old.spare ≤ self.new.spare + 1) }
        ensures room { 0 < self.old.spare → IsOk result }
        ensures refused { OnErr result (self.new ≡ self.old) }
    {
        self.instrs.push(instr)
    }

    /// How many instructions there are.
    pub fn len(&self) -> u64
        ensures { result ≡ length self.now.items }
    {
        self.instrs.len()
    }

    /// The instruction at that place, from 0; `None` exactly past the end.
    pub fn at(&self, pc: u32) -> Option<&Instr>
        ensures { option_copied result ≡ slice_get self.now.items pc }
    {
        self.instrs.at(u64::from(pc))
    }

    /// The code of the new thread that the instruction at `at` starts stands at `body`; of two threads, that of the first.
    /// Another instruction stays as it is.
    pub fn set_body(&mut self, at: u32, body: u32)
        ensures body { self.new.items ≡ with_body self.old.items at body }
        ensures spare { self.new.spare ≡ self.old.spare }
    {
        let at = at as usize;
        if at < self.instrs.items.len() {
            match &mut self.instrs.items[at] {
                Instr::Spawn(_, place) => *place = body,
                Instr::Par(_, place, _, _) => *place = body,
                _ => {}
            }
        }
    }

    /// The code of the second thread that the `Par` at `at` starts stands at `body`. Another instruction stays as it is.
    pub fn set_other(&mut self, at: u32, body: u32)
        ensures body { self.new.items ≡ with_other self.old.items at body }
        ensures spare { self.new.spare ≡ self.old.spare }
    {
        let at = at as usize;
        if at < self.instrs.items.len() {
            if let Instr::Par(_, _, _, place) = &mut self.instrs.items[at] {
                *place = body;
            }
        }
    }
}
