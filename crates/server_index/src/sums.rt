//! Counts in a row, found by the sum of those before.

ghost use Rattle.std.specs.Prelude.{◌≡◌, ℕ, ◌+◌, ◌-◌, ◌^◌, ◌<◌, ◌≤◌, ◌++◌, [], ◌∷◌, length, replicate, set, slice_index_or, IfOk, OnOk, OnErr};
ghost use Rattle.server_index.specs.Lists.{lists};
ghost use Rattle.server_index.specs.Sums.{before, IsAbove, AreAbove, counts};

use crate::widen::widen;
use fr_base::NoMemory;
use std::alloc::Global;
use std::marker::Model;

/// How many counts, or sums, one sum has.
pub(crate) const WIDTH: usize = 16;

/// Counts in a row, and above them levels of sums of sixteen each, as many as it takes until the top one has sixteen at most. So a count
/// changes in as many steps as there are levels, and the place where a rank falls is found in at most sixteen steps at each. Contracts see
/// the counts.
#[derive(Drop)]
pub(crate) struct Sums {
    alloc: Global,
    // the counts, and above each level the sums of sixteen each; none until counts are made
    levels: Vec<Vec<usize>>,
}

impl Model for Sums {
    ghost use Rattle.std.specs.Prelude.{ℕ, List};
    ghost use Rattle.server_index.specs.Lists.{lists};
    ghost use Rattle.server_index.specs.Sums.{AreAbove, counts};

    ghost Value = { List ℕ };

    ghost view = { λ s. counts (lists s.levels.items) };

    ghost invariant = { λ s. AreAbove (lists s.levels.items) };
}

// How many levels so many counts have, of which the top one has sixteen entries at most.
fn levels_of(count: usize) -> usize {
    let mut levels = 1;
    let mut top = count;
    'levels: while top > WIDTH {
        top = top / WIDTH + 1;
        levels += 1;
    }
    levels
}

// The sums of sixteen counts each.
fn sums_of(alloc: Global, level: &[usize]) -> Result<Vec<usize>, NoMemory>
    requires fits { before level.now (length level.now) < 2 ^ 64 }
    ensures { IfOk result (λ sums. IsAbove level.now sums.items) }
{
    let mut sums = Vec::new(alloc);
    widen(&mut sums, level.len() / WIDTH + 1, 0)?;
    'counts: for at in 0..level.len() {
        sums[at / WIDTH] += level[at];
    }
    Ok(sums)
}

// Makes so many levels at least, and one at least.
fn raise(alloc: Global, levels: &mut Vec<Vec<usize>>, count: usize) -> Result<(), NoMemory>
    requires above { AreAbove (lists levels.old.items) }
    requires fits { before (counts (lists levels.old.items)) (length (counts (lists levels.old.items))) < 2 ^ 64 }
    ensures above { AreAbove (lists levels.new.items) }
    ensures same { counts (lists levels.new.items) ≡ counts (lists levels.old.items) }
    ensures some { OnOk result (0 < length levels.new.items) }
{
    if levels.len() == 0 {
        levels.push(Vec::new(alloc))?;
    }
    'levels: for at in levels.len()..count {
        let sums = sums_of(alloc, levels[at - 1].as_slice())?;
        levels.push(sums)?;
    }
    Ok(())
}

// Makes that many counts at least, and the sums above them; those that are new are 0.
fn widen_all(level: &mut Vec<usize>, above: &mut [Vec<usize>], count: usize) -> Result<(), NoMemory>
    requires above { AreAbove (level.old.items ∷ lists above.old) }
    ensures above { AreAbove (level.new.items ∷ lists above.new) }
    ensures more { OnOk result (level.new.items ≡ level.old.items ++ replicate (count - length level.old.items) 0) }
    ensures refused { OnErr result (level.new.items ≡ level.old.items) }
{
    let Some((sums, rest)) = above.split_first_mut() else {
        return widen(level, count, 0);
    };
    widen_all(sums, rest, count / WIDTH + 1)?;
    widen(level, count, 0)
}

// One number off a count, and another one on it, and so at each sum that it is part of.
fn adjust_all(level: &mut Vec<usize>, above: &mut [Vec<usize>], at: usize, less: usize, more: usize)
    requires above { AreAbove (level.old.items ∷ lists above.old) }
    requires within { at < length level.old.items }
    requires least { less ≤ slice_index_or level.old.items at 0 }
    requires fits { before level.old.items (length level.old.items) + more < 2 ^ 64 }
    ensures above { AreAbove (level.new.items ∷ lists above.new) }
    ensures set { level.new.items ≡ set level.old.items at (slice_index_or level.old.items at 0 - less + more) }
{
    level[at] = level[at] - less + more;
    if let Some((sums, rest)) = above.split_first_mut() {
        adjust_all(sums, rest, at / WIDTH, less, more);
    }
}

// The place, from the first one on, where what is left of a rank falls, and what is left of it there.
fn scan(level: &[usize], first: usize, rest: usize) -> (usize, usize)
    requires falls { before level.now first + rest < before level.now (length level.now) }
    ensures sum { before level.now result.0 + result.1 ≡ before level.now first + rest }
    ensures within { result.1 < slice_index_or level.now result.0 0 }
{
    let mut left = rest;
    'counts: for at in first..level.len() {
        let count = level[at];
        if left < count {
            return (at, left);
        }
        left -= count;
    }
    unreachable!()
}

// The place where a rank falls, and what is left of it there.
fn find_in(level: &[usize], above: &[Vec<usize>], rank: usize) -> (usize, usize)
    requires above { AreAbove (level.now ∷ lists above.now) }
    requires falls { rank < before level.now (length level.now) }
    ensures sum { before level.now result.0 + result.1 ≡ rank }
    ensures within { result.1 < slice_index_or level.now result.0 0 }
{
    let Some((sums, rest)) = above.split_first() else {
        return scan(level, 0, rank);
    };
    let (place, left) = find_in(sums, rest, rank);
    scan(level, place * WIDTH, left)
}

impl Sums {
    // No count, and no memory taken yet.
    pub(crate) fn new(alloc: Global) -> Sums
        ensures { result ≡ [] }
    {
        Sums {
            alloc,
            levels: Vec::new(alloc),
        }
    }

    // Makes that many counts at least; those that are new are 0. A refusal changes no count.
    pub(crate) fn reserve(&mut self, count: usize) -> Result<(), NoMemory>
        requires fits { before self.old (length self.old) < 2 ^ 64 }
        ensures more { OnOk result (self.new ≡ self.old ++ replicate (count - length self.old) 0) }
        ensures refused { OnErr result (self.new ≡ self.old) }
    {
        raise(self.alloc, &mut self.levels, levels_of(count))?;
        let Some((level, above)) = self.levels.as_mut_slice().split_first_mut() else {
            unreachable!()
        };
        widen_all(level, above, count)
    }

    // One number off a count, and another one on it.
    pub(crate) fn adjust(&mut self, at: usize, less: usize, more: usize)
        requires within { at < length self.old }
        requires least { less ≤ slice_index_or self.old at 0 }
        requires fits { before self.old (length self.old) + more < 2 ^ 64 }
        ensures { self.new ≡ set self.old at (slice_index_or self.old at 0 - less + more) }
    {
        let Some((level, above)) = self.levels.as_mut_slice().split_first_mut() else {
            unreachable!()
        };
        adjust_all(level, above, at, less, more);
    }

    // The place where a rank falls, and what is left of it there.
    pub(crate) fn find(&self, rank: usize) -> (usize, usize)
        requires falls { rank < before self.now (length self.now) }
        ensures sum { before self.now result.0 + result.1 ≡ rank }
        ensures within { result.1 < slice_index_or self.now result.0 0 }
    {
        let Some((level, above)) = self.levels.as_slice().split_first() else {
            unreachable!()
        };
        find_in(level, above, rank)
    }
}
