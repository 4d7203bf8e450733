//! Numbers that are marked, beside the threads.

ghost use Rattle.std.specs.Prelude.{◌≡◌, ◌<◌, ◌^◌, [], None, Some, length, option_map, slice_get, IfSome, OnOk};
ghost use Rattle.rank_map.specs.Places.{with_place, with_free, entries};
ghost use Rattle.rank_map.specs.Marks.{mark_if};
ghost use Rattle.server_parts.specs.Seen.{seen, HasLeft, IsSet, StandsAs, IsFreed, left_if, left_of, in_runnable, in_waiting, in_movable, HasMarks, with_marks};
ghost use Rattle.server_parts.specs.declared.kind.Kind.TheVariants as kind;

use crate::kind::Kind;
use fr_base::NoMemory;
use server_index::MarkSet;
use std::alloc::Global;
use std::marker::Model;

/// Numbers that are marked or not in three sets, each with a place in all of them, by rising number. The number whose marks went last may
/// still stand in the sets, so that marks that go and come back at once take a comparison.
#[derive(Drop)]
pub(crate) struct Marks {
    runnable: MarkSet,
    waiting: MarkSet,
    movable: MarkSet,
    // a number that has no mark any more, and stands in the sets of the marks that it had
    left: Option<(u64, Kind)>,
}

impl Model for Marks {
    ghost use Rattle.server_parts.specs.Seen.{SetsView, seen, left_of, in_runnable, in_waiting, in_movable, AreSets};

    ghost Value = { SetsView };

    ghost view = { λ m. record {
      runnable = seen m.runnable (left_of in_runnable m.left);
      waiting = seen m.waiting (left_of in_waiting m.left);
      movable = seen m.movable (left_of in_movable m.left);
    } };

    ghost invariant = { λ m. AreSets m.runnable m.waiting m.movable m.left };
}

// The number that left, if it could step.
fn left_runnable(left: Option<(u64, Kind)>) -> Option<u64>
    ensures { result ≡ left_of in_runnable left }
{
    match left {
        Some((number, kind)) if kind.is_runnable() => Some(number),
        _ => None,
    }
}

// The number that left, if it waited.
fn left_waiting(left: Option<(u64, Kind)>) -> Option<u64>
    ensures { result ≡ left_of in_waiting left }
{
    match left {
        Some((number, kind)) if kind.is_waiting() => Some(number),
        _ => None,
    }
}

// The number that left, if it could be moved.
fn left_movable(left: Option<(u64, Kind)>) -> Option<u64>
    ensures { result ≡ left_of in_movable left }
{
    match left {
        Some((number, kind)) if kind.is_movable() => Some(number),
        _ => None,
    }
}

// The marks that a number had when it left, where it is the one that left.
#[inline]
fn left_kind(left: Option<(u64, Kind)>, number: u64) -> Option<Kind>
    ensures { IfSome result (λ kind. left ≡ Some (number, kind)) }
{
    match left {
        Some((other, kind)) if other == number => Some(kind),
        _ => None,
    }
}

// A number that left goes from a set, if it had its mark.
fn clear(set: &mut MarkSet, number: u64, had: bool)
    requires stands { HasLeft set.old (left_if had number) }
    ensures { set.new ≡ seen set.old (left_if had number) }
{
    if had {
        set.unmark(number);
    }
}

// A number that left goes from the sets of the marks that it had.
fn clear_all(
    runnable: &mut MarkSet,
    waiting: &mut MarkSet,
    movable: &mut MarkSet,
    number: u64,
    had: Kind,
)
    requires runnable { HasLeft runnable.old (left_if (in_runnable had) number) }
    requires waiting { HasLeft waiting.old (left_if (in_waiting had) number) }
    requires movable { HasLeft movable.old (left_if (in_movable had) number) }
    ensures runnable { runnable.new ≡ seen runnable.old (left_if (in_runnable had) number) }
    ensures waiting { waiting.new ≡ seen waiting.old (left_if (in_waiting had) number) }
    ensures movable { movable.new ≡ seen movable.old (left_if (in_movable had) number) }
{
    clear(runnable, number, had.is_runnable());
    clear(waiting, number, had.is_waiting());
    clear(movable, number, had.is_movable());
}

// The number that left goes from the sets, if there is one.
#[inline]
fn forget(
    runnable: &mut MarkSet,
    waiting: &mut MarkSet,
    movable: &mut MarkSet,
    left: &mut Option<(u64, Kind)>,
)
    requires runnable { HasLeft runnable.old (left_of in_runnable left.old) }
    requires waiting { HasLeft waiting.old (left_of in_waiting left.old) }
    requires movable { HasLeft movable.old (left_of in_movable left.old) }
    ensures runnable { runnable.new ≡ seen runnable.old (left_of in_runnable left.old) }
    ensures waiting { waiting.new ≡ seen waiting.old (left_of in_waiting left.old) }
    ensures movable { movable.new ≡ seen movable.old (left_of in_movable left.old) }
    ensures left { left.new ≡ None }
{
    if let Some((number, had)) = *left {
        clear_all(runnable, waiting, movable, number, had);
        *left = None;
    }
}

// A number's mark in a set comes, goes or stays.
fn mark_as(set: &mut MarkSet, number: u64, was: bool, on: bool)
    requires was { StandsAs set.old number was }
    ensures { set.new ≡ with_place set.old number (Some (mark_if on)) }
{
    if was == on {
        return;
    }
    if on {
        set.mark(number);
    } else {
        set.unmark(number);
    }
}

// Its marks in all sets come, go or stay.
fn mark_all(
    runnable: &mut MarkSet,
    waiting: &mut MarkSet,
    movable: &mut MarkSet,
    number: u64,
    was: Kind,
    on: Kind,
)
    requires runnable { StandsAs runnable.old number (in_runnable was) }
    requires waiting { StandsAs waiting.old number (in_waiting was) }
    requires movable { StandsAs movable.old number (in_movable was) }
    ensures runnable { runnable.new ≡ with_place runnable.old number (Some (mark_if (in_runnable on))) }
    ensures waiting { waiting.new ≡ with_place waiting.old number (Some (mark_if (in_waiting on))) }
    ensures movable { movable.new ≡ with_place movable.old number (Some (mark_if (in_movable on))) }
{
    mark_as(runnable, number, was.is_runnable(), on.is_runnable());
    mark_as(waiting, number, was.is_waiting(), on.is_waiting());
    mark_as(movable, number, was.is_movable(), on.is_movable());
}

// How many numbers a set has without the one that left.
fn count(set: &MarkSet, left: Option<u64>) -> usize
    requires set { IsSet set.now left }
    ensures { result ≡ length (entries (seen set.now left)) }
{
    match left {
        Some(_) => set.len() - 1,
        None => set.len(),
    }
}

// The number at that place, from 0, in a set without the one that left, by rising number; `None` exactly past the end.
fn nth(set: &MarkSet, left: Option<u64>, at: usize) -> Option<u64>
    requires set { IsSet set.now left }
    ensures { result ≡ option_map (λ e. e.key) (slice_get (entries (seen set.now left)) at) }
{
    let Some(left) = left else {
        return set.nth(at);
    };
    let Some(number) = set.nth(at) else {
        return None;
    };
    if number < left {
        return Some(number);
    }
    set.nth(at + 1)
}

impl Marks {
    /// No place, and no memory taken yet.
    pub fn new(alloc: Global) -> Marks
        ensures { result ≡ record { runnable = []; waiting = []; movable = [] } }
    {
        Marks {
            runnable: MarkSet::new(alloc),
            waiting: MarkSet::new(alloc),
            movable: MarkSet::new(alloc),
            left: None,
        }
    }

    /// Makes a free place for a number in each set, where it has none; after a refusal some sets may have it.
    pub fn reserve(&mut self, number: u64) -> Result<(), NoMemory>
        requires few { number < 2 ^ 40 }
        ensures runnable_place { OnOk result (self.new.runnable ≡ with_free self.old.runnable number) }
        ensures waiting_place { OnOk result (self.new.waiting ≡ with_free self.old.waiting number) }
        ensures movable_place { OnOk result (self.new.movable ≡ with_free self.old.movable number) }
        ensures runnable { IsFreed self.old.runnable self.new.runnable number }
        ensures waiting { IsFreed self.old.waiting self.new.waiting number }
        ensures movable { IsFreed self.old.movable self.new.movable number }
    {
        forget(
            &mut self.runnable,
            &mut self.waiting,
            &mut self.movable,
            &mut self.left,
        );
        self.runnable.reserve(number)?;
        self.waiting.reserve(number)?;
        self.movable.reserve(number)
    }

    /// Takes its marks from a number that has a place. It may stand in the sets until another one leaves, so that this takes a comparison
    /// and a store where none has left before.
    pub fn leave(&mut self, number: u64, had: Kind)
        requires marks { HasMarks self.old number had }
        ensures { self.new ≡ with_marks self.old number kind.Other }
    {
        // the fields tell that the places rise, also where nothing changes
        let _left = self.left;
        if had.is(Kind::Other) {
            return;
        }
        forget(
            &mut self.runnable,
            &mut self.waiting,
            &mut self.movable,
            &mut self.left,
        );
        self.left = Some((number, had));
    }

    /// Gives marks to a number that has a place and none. Where it has left last with the same ones, this takes a comparison and a store.
    pub fn come(&mut self, number: u64, has: Kind)
        requires marks { HasMarks self.old number kind.Other }
        ensures { self.new ≡ with_marks self.old number has }
    {
        let left = self.left;
        if has.is(Kind::Other) {
            return;
        }
        if let Some(had) = left_kind(left, number) {
            self.left = None;
            if had.is(has) {
                return;
            }
            mark_all(
                &mut self.runnable,
                &mut self.waiting,
                &mut self.movable,
                number,
                had,
                has,
            );
            return;
        }
        forget(
            &mut self.runnable,
            &mut self.waiting,
            &mut self.movable,
            &mut self.left,
        );
        mark_all(
            &mut self.runnable,
            &mut self.waiting,
            &mut self.movable,
            number,
            Kind::Other,
            has,
        );
    }

    /// How many can step.
    pub fn stepping(&self) -> usize
        ensures { result ≡ length (entries self.now.runnable) }
    {
        count(&self.runnable, left_runnable(self.left))
    }

    /// The number at that place, from 0, among those that can step, by rising number; `None` exactly past the end.
    pub fn runnable(&self, at: usize) -> Option<u64>
        ensures { result ≡ option_map (λ e. e.key) (slice_get (entries self.now.runnable) at) }
    {
        nth(&self.runnable, left_runnable(self.left), at)
    }

    /// The same among those that wait.
    pub fn waiting(&self, at: usize) -> Option<u64>
        ensures { result ≡ option_map (λ e. e.key) (slice_get (entries self.now.waiting) at) }
    {
        nth(&self.waiting, left_waiting(self.left), at)
    }

    /// The same among those that may be moved.
    pub fn movable(&self, at: usize) -> Option<u64>
        ensures { result ≡ option_map (λ e. e.key) (slice_get (entries self.now.movable) at) }
    {
        nth(&self.movable, left_movable(self.left), at)
    }
}
