//! A chunk of slots for cells.

ghost use Rattle.std.specs.Prelude.{◌≡◌, ◌<◌, ◌++◌, [], ◌∷◌, None, Some, IfOk, length, slice_index_or, slice_set};

use crate::live::Live;
use crate::value::{Cell, Owned};
use fr_base::NoMemory;
use std::alloc::Global;
use std::marker::Model;

/// How many slots a chunk has.
pub const SLOTS: usize = 1024;

/// A block of 1,024 slots: room for as many cells, taken once, and a bit for each slot that tells whether it has a cell. Slots are first
/// used in their order, and the room behind them isn't written before. The block gets no other room, so it isn't moved or given back
/// before the chunk is dropped. Contracts see the cell or nothing in each slot that was used.
#[derive(Drop)]
pub struct Chunk {
    cells: Vec<Cell>,
    live: Live,
}

impl Model for Chunk {
    ghost use Rattle.std.specs.Prelude.{◌≡◌, ◌≤◌, List, Option, length};
    ghost use Rattle.std.specs.Vec.{vec_capacity};
    ghost use Rattle.heap_partition.specs.declared.value.Cell.{Cell};
    ghost use Rattle.heap_partition.specs.Chunks.{slots};

    ghost Value = { List (Option Cell) };

    ghost view = { λ c. slots c.live c.cells.items };

    ghost invariant = { λ c. (length c.live ≡ 1024) × (1024 ≤ vec_capacity c.cells) };
}

impl Chunk {
    /// A chunk of which no slot was used.
    pub fn new(alloc: Global) -> Result<Chunk, NoMemory>
        ensures { IfOk result (λ chunk. chunk ≡ []) }
    {
        // The check asks that each type inside a cell is named where a cell is moved.
        let _inside: Option<Owned> = None;
        match Vec::with_capacity(alloc, SLOTS) {
            Ok(cells) => Ok(Chunk {
                cells,
                live: Live::none(),
            }),
            Err(_) => Err(NoMemory),
        }
    }

    /// What stands in the slot. Constant time.
    pub fn get(&self, at: usize) -> Option<Cell>
        requires { at < length self.now }
        ensures { result ≡ slice_index_or self.now at None }
    {
        let _inside: Option<Owned> = None;
        if self.live.has(at) {
            Some(self.cells[at])
        } else {
            None
        }
    }

    /// Puts a cell into the slot after those that were used. Constant time, no memory.
    pub fn push(&mut self, cell: Cell)
        requires { length self.old < 1024 }
        ensures { self.new ≡ self.old ++ Some cell ∷ [] }
    {
        let _inside: Option<Owned> = None;
        self.live.put(self.cells.len());
        self.cells.push_reserved(cell);
    }

    /// Puts a cell into a slot that was used. Constant time.
    pub fn set(&mut self, at: usize, cell: Cell)
        requires { at < length self.old }
        ensures { self.new ≡ slice_set self.old at (Some cell) }
    {
        let _inside: Option<Owned> = None;
        self.cells[at] = cell;
        self.live.put(at);
    }

    /// Takes out of a slot what stands there. Constant time.
    pub fn take(&mut self, at: usize) -> Option<Cell>
        requires { at < length self.old }
        ensures taken { result ≡ slice_index_or self.old at None }
        ensures left { self.new ≡ slice_set self.old at None }
    {
        let slot = self.get(at);
        self.live.clear(at);
        slot
    }
}
