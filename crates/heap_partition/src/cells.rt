//! Cells by address.

ghost use Rattle.std.specs.Prelude.{◌≡◌, ◌+◌, ◌*◌, ◌<◌, ◌≤◌, ◌++◌, [], ◌∷◌, None, Some, IsOk, OnOk, OnErr, length, slice_index_or, slice_set};
ghost use Rattle.heap_partition.specs.Cells.{next_of, cell_at, IsLive, IsVacant};
ghost use Rattle.heap_partition.specs.Chunks.{slots_of, ArePacked};

use crate::chunk::{Chunk, SLOTS};
use crate::value::{Cell, Owned};
use fr_base::NoMemory;
use std::alloc::Global;
use std::marker::Model;

/// Cells by address, from 0. Contracts see the cell or nothing at each address, and beside it the room.
///
/// The cell of address `a` lies in chunk `a / 1024`, in slot `a % 1024`; no cell is moved by a later call. Each call but `reserve`
/// takes constant time; only `reserve` takes memory.
#[derive(Drop)]
pub struct Cells {
    chunks: Vec<Chunk>,
    next: usize,
    // for how many more addresses there is room, by what was reserved
    room: usize,
}

impl Model for Cells {
    ghost use Rattle.std.specs.Prelude.{◌≡◌, ◌+◌, ◌*◌, ◌≤◌, ◌<◌, ◌^◌, length};
    ghost use Rattle.heap_partition.specs.Chunks.{slots_of, ArePacked};
    ghost use Rattle.heap_partition.specs.View.{CellsView};

    ghost Value = { CellsView };

    ghost view = { λ c. record { state = slots_of c.chunks.items; room = c.room } };

    ghost invariant = { λ c. ArePacked c.chunks.items × (c.next ≡ length (slots_of c.chunks.items)) × (c.next + c.room ≤ 1024 * length c.chunks.items) × (c.next + c.room < 2 ^ 64) };
}

// What stands in a slot that was used.
fn slot_at(chunks: &Vec<Chunk>, at: usize) -> Option<Cell>
    requires packed { ArePacked chunks.now.items }
    requires used { at < length (slots_of chunks.now.items) }
    ensures { result ≡ slice_index_or (slots_of chunks.now.items) at None }
{
    // The check asks that each type inside a cell is named where a cell is moved.
    let _inside: Option<Owned> = None;
    chunks[at / SLOTS].get(at % SLOTS)
}

// Puts a cell into the slot after those that were used.
fn push_slot(chunks: &mut Vec<Chunk>, at: usize, cell: Cell)
    requires packed { ArePacked chunks.old.items }
    requires next { at ≡ length (slots_of chunks.old.items) }
    requires room { at < 1024 * length chunks.old.items }
    ensures packed { ArePacked chunks.new.items }
    ensures slots { slots_of chunks.new.items ≡ slots_of chunks.old.items ++ Some cell ∷ [] }
    ensures chunks { length chunks.new.items ≡ length chunks.old.items }
{
    let _inside: Option<Owned> = None;
    chunks[at / SLOTS].push(cell);
}

// Puts a cell into a slot that was used.
fn set_slot(chunks: &mut Vec<Chunk>, at: usize, cell: Cell)
    requires packed { ArePacked chunks.old.items }
    requires used { at < length (slots_of chunks.old.items) }
    ensures packed { ArePacked chunks.new.items }
    ensures slots { slots_of chunks.new.items ≡ slice_set (slots_of chunks.old.items) at (Some cell) }
    ensures chunks { length chunks.new.items ≡ length chunks.old.items }
{
    let _inside: Option<Owned> = None;
    chunks[at / SLOTS].set(at % SLOTS, cell);
}

// Takes out of a slot what stands there.
fn take_slot(chunks: &mut Vec<Chunk>, at: usize) -> Option<Cell>
    requires packed { ArePacked chunks.old.items }
    requires used { at < length (slots_of chunks.old.items) }
    ensures packed { ArePacked chunks.new.items }
    ensures taken { result ≡ slice_index_or (slots_of chunks.old.items) at None }
    ensures slots { slots_of chunks.new.items ≡ slice_set (slots_of chunks.old.items) at None }
    ensures chunks { length chunks.new.items ≡ length chunks.old.items }
{
    let _inside: Option<Owned> = None;
    chunks[at / SLOTS].take(at % SLOTS)
}

// Adds chunks until there are so many places.
fn grow(chunks: &mut Vec<Chunk>, places: usize) -> Result<(), NoMemory>
    requires packed { ArePacked chunks.old.items }
    ensures packed { ArePacked chunks.new.items }
    ensures slots { slots_of chunks.new.items ≡ slots_of chunks.old.items }
    ensures more { length chunks.old.items ≤ length chunks.new.items }
    ensures enough { OnOk result (places ≤ 1024 * length chunks.new.items) }
{
    let _inside: Option<(Cell, Owned)> = None;
    while chunks.len() <= places / SLOTS {
        let chunk = Chunk::new(*chunks.allocator())?;
        match chunks.push(chunk) {
            Ok(()) => {}
            Err(_) => return Err(NoMemory),
        }
    }
    Ok(())
}

impl Cells {
    /// No cell, and no memory taken yet.
    pub fn new(alloc: Global) -> Cells
        ensures { result.state ≡ [] }
    {
        Cells {
            chunks: Vec::new(alloc),
            next: 0,
            room: 0,
        }
    }

    /// Makes room for `n` more addresses; a refusal changes nothing.
    pub fn reserve(&mut self, n: usize) -> Result<(), NoMemory>
        ensures state { self.new.state ≡ self.old.state }
        ensures room { OnOk result (n ≤ self.new.room) }
        ensures had_room { n ≤ self.old.room → IsOk result }
        ensures spare { self.old.room ≤ self.new.room }
        ensures refused { OnErr result (self.new ≡ self.old) }
    {
        if n <= self.room {
            return Ok(());
        }
        let places = self.next.checked_add(n).ok_or(NoMemory)?;
        grow(&mut self.chunks, places)?;
        self.room = n;
        Ok(())
    }

    /// The least address never used.
    pub fn next(&self) -> u64
        ensures { result ≡ next_of self.now.state }
    {
        self.next as u64
    }

    /// Puts the cell at the least address never used, and answers it. There is room.
    pub fn put(&mut self, cell: Cell) -> u64
        requires room { 0 < self.old.room }
        ensures address { result ≡ next_of self.old.state }
        ensures put { self.new.state ≡ self.old.state ++ Some cell ∷ [] }
        ensures spare { self.new.room + 1 ≡ self.old.room }
    {
        let address = self.next;
        push_slot(&mut self.chunks, address, cell);
        self.next += 1;
        self.room -= 1;
        address as u64
    }

    /// Puts the cell at a vacant address that was used before.
    pub fn put_at(&mut self, address: u64, cell: Cell)
        requires below { address < next_of self.old.state }
        requires vacant { IsVacant self.old.state address }
        ensures put { self.new.state ≡ slice_set self.old.state address (Some cell) }
        ensures spare { self.new.room ≡ self.old.room }
    {
        set_slot(&mut self.chunks, address as usize, cell);
    }

    /// The cell at the address; `None` exactly where it is vacant or was never used.
    pub fn get(&self, address: u64) -> Option<Cell>
        ensures { result ≡ cell_at self.now.state address }
    {
        if address < self.next as u64 {
            slot_at(&self.chunks, address as usize)
        } else {
            None
        }
    }

    /// Puts another cell at a live address.
    pub fn set(&mut self, address: u64, cell: Cell)
        requires live { IsLive self.old.state address }
        ensures set { self.new.state ≡ slice_set self.old.state address (Some cell) }
        ensures spare { self.new.room ≡ self.old.room }
    {
        set_slot(&mut self.chunks, address as usize, cell);
    }

    /// Takes the cell out of a live address, which is vacant afterwards.
    pub fn take(&mut self, address: u64) -> Cell
        requires live { IsLive self.old.state address }
        ensures cell { cell_at self.old.state address ≡ Some result }
        ensures left { self.new.state ≡ slice_set self.old.state address None }
        ensures spare { self.new.room ≡ self.old.room }
    {
        let _inside: Option<Owned> = None;
        take_slot(&mut self.chunks, address as usize).unwrap()
    }
}
