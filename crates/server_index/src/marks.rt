//! Numbers that are marked.

ghost use Rattle.std.specs.Prelude.{◌≡◌, ◌≢◌, ◌<◌, ◌≤◌, ◌^◌, true, false, [], None, Some, length, nat_lt, option_map, slice_get, IsTrue, IsOk, OnOk, OnErr};
ghost use Rattle.std.specs.List.{prefix_len};
ghost use Rattle.rank_map.specs.Places.{has_place, with_place, with_free, entries, Rises};
ghost use Rattle.server_index.specs.MarkSets.{Climbs, with_number, without_number, lit, numbers, HavePlaces};

use crate::ranks::Ranks;
use arrayvec::ArrayVec;
use fr_base::NoMemory;
use std::alloc::Global;
use std::marker::Model;

// With so many marks left they come back to the list.
const FEW_AGAIN: usize = 8;

/// Numbers that are marked, by rising number; numbers are below 2^40. A mark stands at a place, and only making a place takes memory.
/// Contracts see the places by rising number, each marked or not.
///
/// Mostly few of many numbers are marked: up to sixteen marks stand in a short list, where `mark` and `unmark` take at most as many steps
/// as there are marks, and `len` and `nth` one. The seventeenth moves them all to the places, and they come back to the list once eight
/// are left. So at least nine changes lie between two such moves.
///
/// A place is a byte, found by the number's higher bits and then by its lower 32 bits. Above the bytes of the numbers with the same higher
/// bits stand counts of the marks among each sixteen, and above these levels of sums of sixteen each, until the top one has sixteen at most:
/// some half a byte more for each number. With the counts there are no more levels than the highest lower bits have hexadecimal digits: four
/// for 65,536 numbers. So there `mark` and `unmark` change a byte and a count or a sum at each level, `len` takes one step, and `nth` one for
/// each value of the higher bits up to the number's, and at most sixteen among the bytes and at each level.
#[derive(Drop)]
pub struct MarkSet {
    // marked numbers, rising, while the marks haven't spilled
    few: ArrayVec<u64, 16>,
    // a place for each number that has one, and the marks that have spilled
    ranks: Ranks,
    spilled: bool,
}

impl Model for MarkSet {
    ghost use Rattle.std.specs.Prelude.{List};
    ghost use Rattle.rank_map.specs.Places.{Place};
    ghost use Rattle.server_index.specs.MarkSets.{lit, IsMarkSet};

    ghost Value = { List (Place (Unit {0})) };

    ghost view = { λ s. lit s.few.items s.ranks };

    ghost invariant = { λ s. IsMarkSet s.few.items s.ranks s.spilled };
}

// How many numbers from the first on are below one. In rising numbers that is where it stands or goes.
fn rank_of(few: &[u64], number: u64) -> usize
    ensures { result ≡ prefix_len (λ j. nat_lt j number) few.now }
{
    few.iter().take_while(|other| **other < number).count()
}

// The number at that place.
fn number_at(few: &[u64], at: usize) -> Option<u64>
    ensures { result ≡ slice_get few.now at }
{
    few.get(at).copied()
}

// Whether a number is the one at that place.
fn stands_at(few: &[u64], at: usize, number: u64) -> bool
    ensures yes { IsTrue result → slice_get few.now at ≡ Some number }
    ensures no { result ≡ false → slice_get few.now at ≢ Some number }
{
    match few.get(at) {
        Some(other) => *other == number,
        None => false,
    }
}

// Puts a number among the few, if it isn't there, and answers `true`; `false` where there is no room for it.
fn put(few: &mut ArrayVec<u64, 16>, number: u64) -> bool
    ensures put { IsTrue result → few.new.items ≡ with_number few.old.items number }
    ensures full { result ≡ false → few.new ≡ few.old }
{
    let at = rank_of(few.as_slice(), number);
    if stands_at(few.as_slice(), at, number) {
        return true;
    }
    if few.is_full() {
        return false;
    }
    few.insert(at, number);
    true
}

// Takes a number from the few, if it is there.
fn take_out(few: &mut ArrayVec<u64, 16>, number: u64)
    ensures { few.new.items ≡ without_number few.old.items number }
{
    let at = rank_of(few.as_slice(), number);
    if stands_at(few.as_slice(), at, number) {
        few.remove(at);
    }
}

// Moves the marks of the few to their places.
fn spill(few: &mut ArrayVec<u64, 16>, ranks: &mut Ranks)
    requires rises { Rises 0 (2 ^ 40) ranks.old }
    requires placed { HavePlaces few.old.items ranks.old }
    ensures few { few.new.items ≡ [] }
    ensures same { lit few.new.items ranks.new ≡ lit few.old.items ranks.old }
    ensures rises { Rises 0 (2 ^ 40) ranks.new }
{
    'marks: while let Some(number) = few.pop() {
        ranks.insert(number);
    }
}

// Moves the marks from their places to the list, by rising number.
fn come_back(few: &mut ArrayVec<u64, 16>, ranks: &mut Ranks)
    requires none { few.old.items ≡ [] }
    requires rises { Rises 0 (2 ^ 40) ranks.old }
    requires room { length (entries ranks.old) ≤ 16 }
    ensures few { few.new.items ≡ numbers ranks.old }
    ensures same { lit few.new.items ranks.new ≡ ranks.old }
    ensures none { entries ranks.new ≡ [] }
    ensures rises { Rises 0 (2 ^ 40) ranks.new }
    ensures placed { HavePlaces few.new.items ranks.new }
{
    'marks: while let Some(number) = ranks.nth(0) {
        ranks.take(number);
        few.push(number);
    }
}

impl MarkSet {
    /// No place, and no memory taken yet.
    pub fn new(alloc: Global) -> MarkSet
        ensures { result ≡ [] }
    {
        MarkSet {
            few: ArrayVec::new(),
            ranks: Ranks::new(alloc),
            spilled: false,
        }
    }

    /// How many numbers are marked, in one step.
    pub fn len(&self) -> usize
        ensures { result ≡ length (entries self.now) }
    {
        if self.spilled {
            self.ranks.len()
        } else {
            self.few.len()
        }
    }

    /// The number at that place, from 0, among those that are marked, by rising number; `None` exactly past the end. One step while few
    /// are marked.
    pub fn nth(&self, at: usize) -> Option<u64>
        ensures { result ≡ option_map (λ e. e.key) (slice_get (entries self.now) at) }
    {
        if self.spilled {
            self.ranks.nth(at)
        } else {
            number_at(self.few.as_slice(), at)
        }
    }

    /// Makes a place for a number, not marked, where it has none. It takes a byte for each number up to this one among those with the same
    /// higher bits, once, and some half a byte more for counts and sums; a list of these that is full moves to one that is twice as long, or
    /// as long as is asked.
    ///
    /// # Errors
    ///
    /// `NoMemory` where memory is refused, which changes nothing; never for a number that has a place.
    pub fn reserve(&mut self, number: u64) -> Result<(), NoMemory>
        requires few { number < 2 ^ 40 }
        ensures place { OnOk result (self.new ≡ with_free self.old number) }
        ensures had_place { has_place self.old number ≡ true → IsOk result }
        ensures refused { OnErr result (self.new ≡ self.old) }
    {
        self.ranks.reserve(number)
    }

    /// Marks a number that has a place; one that is marked stays so. At most sixteen steps while few are marked.
    pub fn mark(&mut self, number: u64)
        requires place { has_place self.old number ≡ true }
        ensures { self.new ≡ with_place self.old number (Some (Some tt)) }
    {
        if self.spilled {
            self.ranks.insert(number);
            return;
        }
        if put(&mut self.few, number) {
            return;
        }
        spill(&mut self.few, &mut self.ranks);
        self.spilled = true;
        self.ranks.insert(number);
    }

    /// Takes the mark from a number that has a place; one that isn't marked stays so. At most sixteen steps while few are marked.
    pub fn unmark(&mut self, number: u64)
        requires place { has_place self.old number ≡ true }
        ensures { self.new ≡ with_place self.old number (Some None) }
    {
        if self.spilled {
            self.ranks.take(number);
            if self.ranks.len() <= FEW_AGAIN {
                come_back(&mut self.few, &mut self.ranks);
                self.spilled = false;
            }
        } else {
            take_out(&mut self.few, number);
        }
    }
}
