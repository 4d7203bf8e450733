//! States in a row, found by the marks before.

ghost use Rattle.std.specs.Prelude.{◌≡◌, ℕ, ◌+◌, ◌-◌, ◌^◌, ◌<◌, ◌≤◌, ◌++◌, [], Some, None, length, replicate, set, slice_index_or, IfOk, OnOk, OnErr};
ghost use Rattle.rank_map.specs.Places.{with_place};
ghost use Rattle.server_index.specs.Rows.{row_places};
ghost use Rattle.server_index.specs.Sums.{before};
ghost use Rattle.server_index.specs.Ranks.{mark_in, count_in, marks};

use crate::sums::{Sums, WIDTH};
use crate::widen::widen;
use fr_base::NoMemory;
use std::alloc::Global;
use std::marker::Model;

// No place.
pub(crate) const NONE: u8 = 0;

// A place without a mark.
pub(crate) const FREE: u8 = 1;

// A place with a mark.
pub(crate) const MARK: u8 = 2;

/// The states of the numbers with the same higher bits: each has no place, a free one or a mark. Contracts see the states.
#[derive(Drop)]
pub(crate) struct Row {
    states: Vec<u8>,
    // how many marks there are among each sixteen
    sums: Sums,
    count: usize,
}

impl Model for Row {
    ghost use Rattle.std.specs.Prelude.{ℕ, List};
    ghost use Rattle.server_index.specs.Ranks.{IsRow};

    ghost Value = { List ℕ };

    ghost view = { λ r. r.states.items };

    ghost invariant = { λ r. IsRow r.states.items r.sums r.count };
}

// One mark, or none.
pub(crate) fn count_in(state: u8) -> usize
    ensures { result ≡ count_in state }
{
    match state {
        NONE | FREE => 0,
        _ => 1,
    }
}

// The first marked state, from the first place on, once so many others are left out.
fn scan(states: &[u8], first: usize, rest: usize) -> usize
    requires falls { before (marks states.now) first + rest < before (marks states.now) (length states.now) }
    ensures rank { before (marks states.now) result ≡ before (marks states.now) first + rest }
    ensures marked { count_in (slice_index_or states.now result 0) ≡ 1 }
{
    let mut left = rest;
    'states: for at in first..states.len() {
        let count = count_in(states[at]);
        if left < count {
            return at;
        }
        left -= count;
    }
    unreachable!()
}

impl Row {
    // No state, and no memory taken yet.
    pub(crate) fn new(alloc: Global) -> Row
        ensures { result ≡ [] }
    {
        Row {
            states: Vec::new(alloc),
            sums: Sums::new(alloc),
            count: 0,
        }
    }

    // So many states, each none.
    pub(crate) fn of_none(alloc: Global, count: usize) -> Result<Row, NoMemory>
        requires few { count ≤ 2 ^ 32 }
        ensures { IfOk result (λ r. r ≡ replicate count 0) }
    {
        let mut row = Row::new(alloc);
        row.widen(count)?;
        Ok(row)
    }

    // How many marks there are.
    pub(crate) fn len(&self) -> usize
        ensures { result ≡ before (marks self.now) (length self.now) }
    {
        self.count
    }

    // The state at that column; none past the end.
    pub(crate) fn state(&self, column: usize) -> u8
        ensures { result ≡ slice_index_or self.now column 0 }
    {
        if column < self.states.len() {
            self.states[column]
        } else {
            NONE
        }
    }

    // The column of the mark of that rank.
    pub(crate) fn find(&self, rank: usize) -> usize
        requires falls { rank < before (marks self.now) (length self.now) }
        ensures rank { before (marks self.now) result ≡ rank }
        ensures marked { count_in (slice_index_or self.now result 0) ≡ 1 }
    {
        let (sum, left) = self.sums.find(rank);
        scan(&self.states, sum * WIDTH, left)
    }

    // Another state at a column.
    pub(crate) fn put(&mut self, column: usize, state: u8)
        requires within { column < length self.old }
        ensures { self.new ≡ set self.old column state }
    {
        let less = count_in(self.states[column]);
        let more = count_in(state);
        self.states[column] = state;
        if less != more {
            self.sums.adjust(column / WIDTH, less, more);
            self.count = self.count - less + more;
        }
    }

    // Makes that many states at least; those that are new are none.
    fn widen(&mut self, count: usize) -> Result<(), NoMemory>
        requires few { count ≤ 2 ^ 32 }
        ensures more { OnOk result (self.new ≡ self.old ++ replicate (count - length self.old) 0) }
        ensures refused { OnErr result (self.new ≡ self.old) }
        ensures short { length self.new ≤ 2 ^ 32 }
    {
        self.sums.reserve(count / WIDTH + 1)?;
        widen(&mut self.states, count, NONE)
    }

    // Makes a free place at a column that has none.
    pub(crate) fn reserve(&mut self, column: usize) -> Result<(), NoMemory>
        requires column { column < 2 ^ 32 }
        ensures place { OnOk result ((first : ℕ) → row_places mark_in first self.new ≡ with_place (row_places mark_in first self.old) (first + column) (Some None)) }
        ensures refused { OnErr result ((first : ℕ) → row_places mark_in first self.new ≡ row_places mark_in first self.old) }
        ensures short { length self.new ≤ 2 ^ 32 }
    {
        self.widen(column + 1)?;
        self.put(column, FREE);
        Ok(())
    }
}
