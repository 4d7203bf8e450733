//! Marked numbers by rank.

ghost use Rattle.std.specs.Prelude.{◌≡◌, ◌^◌, ◌<◌, ◌≤◌, true, [], None, Some, is_some, length, option_map, slice_get, IsOk, OnOk, OnErr};
ghost use Rattle.rank_map.specs.Places.{place_at, has_place, with_place, with_free, entries};
ghost use Rattle.server_index.specs.Rows.{places_from, AreShort};
ghost use Rattle.server_index.specs.Ranks.{mark_in};

use crate::keys::{key_at, split};
use crate::row::{FREE, MARK, NONE, Row, count_in};
use crate::rows::make_rows;
use fr_base::NoMemory;
use std::alloc::Global;
use std::marker::Model;

/// Numbers that are marked, and places for more, by the numbers' higher bits and then by their lower 32 bits. Contracts see the places by
/// rising number, each marked or not.
#[derive(Drop)]
pub(crate) struct Ranks {
    alloc: Global,
    rows: Vec<Row>,
    // how many numbers are marked
    total: usize,
}

impl Model for Ranks {
    ghost use Rattle.std.specs.Prelude.{List};
    ghost use Rattle.rank_map.specs.Places.{Place};
    ghost use Rattle.server_index.specs.Rows.{places_from};
    ghost use Rattle.server_index.specs.Ranks.{mark_in, IsRanks};

    ghost Value = { List (Place (Unit {0})) };

    ghost view = { λ r. places_from mark_in 0 r.rows.items };

    ghost invariant = { λ r. IsRanks r.rows.items r.total };
}

impl Ranks {
    // No place, and no memory taken yet.
    pub(crate) fn new(alloc: Global) -> Ranks
        ensures { result ≡ [] }
    {
        Ranks {
            alloc,
            rows: Vec::new(alloc),
            total: 0,
        }
    }

    // How many numbers are marked.
    pub(crate) fn len(&self) -> usize
        ensures { result ≡ length (entries self.now) }
    {
        self.total
    }

    // The number at that place, from 0, among those that are marked; `None` exactly past the end.
    pub(crate) fn nth(&self, at: usize) -> Option<u64>
        ensures { result ≡ option_map (λ e. e.key) (slice_get (entries self.now) at) }
    {
        let mut left = at;
        'rows: for row in 0..self.rows.len() {
            let states = &self.rows[row];
            let count = states.len();
            if left < count {
                return Some(key_at(row, states.find(left)));
            }
            left -= count;
        }
        None
    }

    // The state of a number.
    fn state(&self, number: u64) -> u8
        ensures { mark_in result ≡ place_at self.now number }
    {
        let (row, column) = split(number);
        if row < self.rows.len() {
            self.rows[row].state(column)
        } else {
            NONE
        }
    }

    // Makes a place for a number, where it has none. A refusal changes nothing that is seen.
    pub(crate) fn reserve(&mut self, number: u64) -> Result<(), NoMemory>
        requires few { number < 2 ^ 40 }
        ensures place { OnOk result (self.new ≡ with_free self.old number) }
        ensures had_place { has_place self.old number ≡ true → IsOk result }
        ensures refused { OnErr result (self.new ≡ self.old) }
    {
        if self.state(number) != NONE {
            return Ok(());
        }
        let (row, column) = split(number);
        make_rows(self.alloc, &mut self.rows, row + 1)?;
        self.rows[row].reserve(column)
    }

    // Another state of a number that has a place, and has one afterwards.
    fn put(&mut self, number: u64, state: u8)
        requires place { has_place self.old number ≡ true }
        requires state { is_some (mark_in state) ≡ true }
        ensures { self.new ≡ with_place self.old number (mark_in state) }
    {
        let (row, column) = split(number);
        let less = count_in(self.state(number));
        self.rows[row].put(column, state);
        self.total = self.total - less + count_in(state);
    }

    // Marks a number that has a place.
    pub(crate) fn insert(&mut self, number: u64)
        requires place { has_place self.old number ≡ true }
        ensures places { self.new ≡ with_place self.old number (Some (Some tt)) }
    {
        self.put(number, MARK);
    }

    // Takes the mark from a number that has a place.
    pub(crate) fn take(&mut self, number: u64)
        requires place { has_place self.old number ≡ true }
        ensures places { self.new ≡ with_place self.old number (Some None) }
    {
        self.put(number, FREE);
    }
}
