//! Where each key's slot is told.

ghost use Rattle.std.specs.Prelude.{◌≡◌, ℕ, ◌+◌, ◌-◌, ◌<◌, ◌≤◌, ◌^◌, [], Some, length, slice_index_or, OnOk, OnErr};
ghost use Rattle.rank_map.specs.Places.{item_in, item_at, with_place};
ghost use Rattle.server_index.specs.Rows.{row_places, places_from, AreShort};
ghost use Rattle.server_index.specs.Lists.{lists};
ghost use Rattle.server_index.specs.Indexes.{place_in};

use crate::keys::split;
use crate::rows::make_rows;
use crate::widen::widen;
use fr_base::NoMemory;
use std::alloc::Global;
use std::marker::Model;

/// Where each key's slot is told: by the key's higher bits, then by its lower 32 bits. Contracts see the places of the keys that have a
/// slot, by rising key, each with its slot's number as item.
#[derive(Drop)]
pub(crate) struct Index {
    alloc: Global,
    // an entry is one more than the slot's number, or 0 where the key has no place
    rows: Vec<Vec<u32>>,
}

impl Model for Index {
    ghost use Rattle.std.specs.Prelude.{ℕ, List};
    ghost use Rattle.rank_map.specs.Places.{Place};
    ghost use Rattle.server_index.specs.Rows.{places_from, AreShort};
    ghost use Rattle.server_index.specs.Lists.{lists};
    ghost use Rattle.server_index.specs.Indexes.{place_in};

    ghost Value = { List (Place ℕ) };

    ghost view = { λ i. places_from place_in 0 (lists i.rows.items) };

    ghost invariant = { λ i. AreShort (lists i.rows.items) };
}

// The entry at that column; 0 past the end.
fn entry_at(row: &[u32], column: usize) -> u32
    ensures { result ≡ slice_index_or row.now column 0 }
{
    if column < row.len() { row[column] } else { 0 }
}

// The slot that an entry tells.
fn slot_in(entry: u32) -> Option<usize>
    ensures { result ≡ item_in (place_in entry) }
{
    (entry as usize).checked_sub(1)
}

// Notes a key's slot at its column.
fn note(row: &mut Vec<u32>, column: usize, slot: usize) -> Result<(), NoMemory>
    requires column { column < 2 ^ 32 }
    requires slot { slot < 2 ^ 32 - 1 }
    requires short { length row.old.items ≤ 2 ^ 32 }
    ensures place { OnOk result ((first : ℕ) → row_places place_in first row.new.items ≡ with_place (row_places place_in first row.old.items) (first + column) (Some (Some slot))) }
    ensures refused { OnErr result ((first : ℕ) → row_places place_in first row.new.items ≡ row_places place_in first row.old.items) }
    ensures short { length row.new.items ≤ 2 ^ 32 }
{
    widen(row, column + 1, 0)?;
    row[column] = slot as u32 + 1;
    Ok(())
}

impl Index {
    // No place, and no memory taken yet.
    pub(crate) fn new(alloc: Global) -> Index
        ensures { result ≡ [] }
    {
        Index {
            alloc,
            rows: Vec::new(alloc),
        }
    }

    // The slot of a key, where it has a place, by two look-ups.
    pub(crate) fn get(&self, key: u64) -> Option<usize>
        ensures { result ≡ item_at self.now key }
    {
        let (row, column) = split(key);
        if row < self.rows.len() {
            slot_in(entry_at(&self.rows[row], column))
        } else {
            None
        }
    }

    // Notes a key's slot, and makes the key's place where it has none. A refusal changes nothing that is seen.
    pub(crate) fn add(&mut self, key: u64, slot: usize) -> Result<(), NoMemory>
        requires few { key < 2 ^ 40 }
        ensures place { OnOk result (self.new ≡ with_place self.old key (Some (Some slot))) }
        ensures refused { OnErr result (self.new ≡ self.old) }
    {
        // A list of so many slots takes over a hundred gigabytes.
        if slot >= u32::MAX as usize {
            return Err(NoMemory);
        }
        let (row, column) = split(key);
        make_rows(self.alloc, &mut self.rows, row + 1)?;
        note(&mut self.rows[row], column, slot)
    }
}
