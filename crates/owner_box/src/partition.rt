//! The partition of one server.

ghost use Rattle.std.specs.Prelude.{◌≡◌, ◌+◌, ◌<◌, ◌≤◌, ◌^◌, ◌↔◌, Some, length, IsTrue, IsOk, OnOk, OnErr};
ghost use Rattle.heap_partition.specs.Cells.{IsVacant};
ghost use Rattle.owner_box.specs.Partition.{put_cell, started, cell_of, LeadsTo, IsTidy, IsLast, new_word, made, stored, freed, renewed};

use colour_retire::Colours;
use fr_base::NoMemory;
use global_addr::Word;
use heap_partition::{Cell, Cells, Owned};
use std::alloc::Global;
use std::marker::Model;

/// The memory of one server. Contracts see its server and colour limit, the cell or nothing at each address that was ever
/// used, the free addresses with their next colours (the last freed first), the number of retired addresses, and how many
/// objects can be made or renewed without memory. Each address below the next one is in exactly one state: live, free
/// from a colour between 1 and the limit, or retired. Addresses stay below 2^40. Each call but `reserve` takes constant
/// time; only `reserve` takes memory.
#[derive(Drop)]
pub struct Partition {
    server: u8,
    limit: u32,
    cells: Cells,
    colours: Colours,
    // how many addresses are live
    live: usize,
    // how many makes and renewals there is still room for, by what was reserved
    room: usize,
}

impl Model for Partition {
    ghost use Rattle.owner_box.specs.View.{PartitionView};
    ghost use Rattle.owner_box.specs.Partition.{AreStates, HasRoom};

    ghost Value = { PartitionView };

    ghost view = { λ p. record {
      state = record { server = p.server; limit = p.limit; cells = p.cells.state; free = p.colours.state.free; retired = p.colours.state.retired };
      room = p.room;
    } };

    ghost invariant = { λ p. AreStates p.limit p.cells.state p.colours.state.free p.colours.state.retired × HasRoom p.cells.state p.live p.room p.cells.room p.colours.room };
}

// Puts the cell at a vacant address, or at the next one.
fn put_cell(cells: &mut Cells, address: u64, cell: Cell)
    requires room { 0 < cells.old.room }
    requires below { address ≤ length cells.old.state }
    requires vacant { IsVacant cells.old.state address }
    ensures put { cells.new.state ≡ put_cell cells.old.state address cell }
    ensures spare { cells.old.room ≤ cells.new.room + 1 }
{
    if address == cells.next() {
        cells.put(cell);
    } else {
        cells.put_at(address, cell);
    }
}

impl Partition {
    /// The memory of that server, with no object and no memory taken yet. The limit of colours is from 1 to 65,536.
    pub fn new(alloc: Global, server: u8, limit: u32) -> Partition
        requires limit { (1 ≤ limit) × (limit ≤ 65536) }
        ensures state { result.state ≡ started server limit }
        ensures room { result.room ≡ 0 }
    {
        Partition {
            server,
            limit,
            cells: Cells::new(alloc),
            colours: Colours::new(alloc),
            live: 0,
            room: 0,
        }
    }

    /// Makes room to make or renew `n` objects and to free every live one; a refusal changes nothing.
    pub fn reserve(&mut self, n: usize) -> Result<(), NoMemory>
        ensures state { self.new.state ≡ self.old.state }
        ensures room { OnOk result (n ≤ self.new.room) }
        ensures had_room { n ≤ self.old.room → IsOk result }
        ensures spare { self.old.room ≤ self.new.room }
        ensures refused { OnErr result (self.new ≡ self.old) }
    {
        if n <= self.room {
            return Ok(());
        }
        let pairs = n.checked_add(self.live).ok_or(NoMemory)?;
        self.cells.reserve(n)?;
        self.colours.reserve(pairs)?;
        self.room = n;
        Ok(())
    }

    /// Makes an object of the cell and answers its word, which was never issued before. There is room, and the next address
    /// is below 2^40.
    pub fn make(&mut self, cell: Cell) -> Word
        requires room { 0 < self.old.room }
        requires few { length self.old.state.cells < 2 ^ 40 }
        ensures word { result ≡ new_word self.old.state }
        ensures made { self.new.state ≡ made self.old.state cell }
        ensures spare { self.new.room + 1 ≡ self.old.room }
    {
        let next = self.cells.next();
        let (address, colour) = self.colours.pick(next);
        put_cell(&mut self.cells, address, cell);
        self.live += 1;
        self.room -= 1;
        Word::pack(colour, self.server, address)
    }

    /// The cell that the word leads to: it has this server, a live address, and a colour below the limit.
    pub fn look(&self, word: Word) -> Cell
        requires leads { LeadsTo self.now.state word }
        ensures { cell_of self.now.state word ≡ Some result }
    {
        // The check asks that each type inside a cell is named where a cell is moved.
        let _inside: Option<Owned> = None;
        self.cells.get(word.address()).unwrap()
    }

    /// Gives the object that the word leads to another value.
    pub fn store(&mut self, word: Word, value: Owned)
        requires leads { LeadsTo self.old.state word }
        ensures stored { self.new.state ≡ stored self.old.state word value }
        ensures spare { self.new.room ≡ self.old.room }
    {
        let address = word.address();
        let object = self.cells.get(address).unwrap().object;
        self.cells.set(address, Cell { object, value });
    }

    /// The object that the word leads to leaves, and its address is freed. It needs no room.
    pub fn give(&mut self, word: Word) -> Cell
        requires leads { LeadsTo self.old.state word }
        ensures cell { cell_of self.old.state word ≡ Some result }
        ensures freed { self.new.state ≡ freed self.old.state word }
        ensures spare { self.new.room ≡ self.old.room }
    {
        let cell = self.cells.take(word.address());
        self.colours.free(word, self.limit);
        self.live -= 1;
        cell
    }

    /// Gives the object that the word leads to a new word, and retires its address. There is room, the word has the last
    /// colour, and the next address is below 2^40.
    pub fn renew(&mut self, word: Word) -> Word
        requires leads { LeadsTo self.old.state word }
        requires last { IsLast self.old.state word }
        requires room { 0 < self.old.room }
        requires few { length self.old.state.cells < 2 ^ 40 }
        ensures word { result ≡ new_word (freed self.old.state word) }
        ensures renewed { self.new.state ≡ renewed self.old.state word }
        ensures spare { self.new.room + 1 ≡ self.old.room }
    {
        let cell = self.give(word);
        self.make(cell)
    }

    /// The object that the word leads to goes, and its address is freed. It needs no room.
    pub fn free(&mut self, word: Word) -> Cell
        requires leads { LeadsTo self.old.state word }
        ensures cell { cell_of self.old.state word ≡ Some result }
        ensures freed { self.new.state ≡ freed self.old.state word }
        ensures spare { self.new.room ≡ self.old.room }
    {
        self.give(word)
    }

    /// Whether the word leads to an object here: the condition of the calls that take a word.
    pub fn leads_to(&self, word: Word) -> bool
        ensures { IsTrue result ↔ LeadsTo self.now.state word }
    {
        word.server() == self.server
            && u32::from(word.colour()) < self.limit
            && self.cells.get(word.address()).is_some()
    }

    /// The least address never used.
    pub fn next(&self) -> u64
        ensures { result ≡ length self.now.state.cells }
    {
        self.cells.next()
    }

    /// The limit of colours, from 1 to 65,536.
    pub fn limit(&self) -> u32
        ensures limit { result ≡ self.now.state.limit }
        ensures range { (1 ≤ result) × (result ≤ 65536) }
    {
        self.limit
    }

    /// How many addresses were retired.
    pub fn retired(&self) -> u64
        ensures { result ≡ self.now.state.retired }
    {
        self.colours.retired()
    }

    /// A law: each address that was ever used is live, free or retired, and their numbers are exact.
    pub fn tidy(&self)
        ensures states { IsTidy self.now.state }
        ensures server { self.now.state.server < 2 ^ 8 }
    {
        let _server = self.server;
    }
}
