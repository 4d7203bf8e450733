//! Places that are written: each star is a hop, whose object comes here, and a box gets a new word.

ghost use Rattle.std.specs.Prelude.{◌≡◌, ◌+◌, ◌*◌, ◌<◌, ◌≤◌, true, Some, IsSome};
ghost use Rattle.server_model.specs.Places.{pointer_of, slot_in, value_at};
ghost use Rattle.server_model.specs.Prepare.{ask_object, request_by, colour_box, write_by, pass_by, write_value, write_star, write_stars};
ghost use Rattle.server_ready.specs.Prepareds.{prepared, is_prepared};
ghost use Rattle.server_parts.specs.Spots.{spot};
ghost use Rattle.server_parts.specs.Hands.{hand};

use crate::prepared::Prepared;
use crate::reading::{ask_object, local};
use heap_partition::Owned;
use place_walk::{Hop, write_hop};
use server_parts::{Spot, Work, issue_colour, load_at, pointer_of, set_pointer, value_at};
use thread_state::{Thread, Value};

// The slot of a reference that stands in one.
fn slot_in(at: &Spot) -> Option<u32>
    ensures { result ≡ slot_in (spot at.now) }
{
    match *at {
        Spot::Slot(slot) => Some(slot),
        _ => None,
    }
}

// A box whose object is here gets a new word, which leads to the cell.
fn colour_box(work: &mut Work, thread: &mut Thread, at: &Spot, value: &Value) -> Prepared
    requires ready { is_prepared (colour_box (spot at.now) (pointer_of value.now) (hand work.old thread.old)) ≡ true }
    requires room { 1 < work.old.room }
    ensures state { colour_box (spot at.now) (pointer_of value.now) (hand work.old thread.old) ≡ prepared result (hand work.new thread.new) }
    ensures spare { work.old.room ≤ work.new.room + 2 }
    ensures copies { work.new.copies ≡ work.old.copies }
    ensures thread_room { thread.new.room ≡ thread.old.room }
{
    let Some(pointer) = pointer_of(value) else {
        unreachable!();
    };
    let word = issue_colour(work, pointer);
    set_pointer(work, thread, at, word);
    Prepared::Ready(Spot::Cell(word, None))
}

/// Asks the pointer's server for the object.
pub(crate) fn request(work: &mut Work, thread: &mut Thread, value: &Value) -> Prepared
    requires ready { IsSome (pointer_of value.now) }
    requires room { 1 < work.old.room }
    ensures state { request_by ask_object (hand work.old thread.old) (pointer_of value.now) ≡ prepared result (hand work.new thread.new) }
    ensures spare { work.old.room ≤ work.new.room + 2 }
    ensures copies { work.new.copies ≡ work.old.copies }
    ensures thread_room { thread.new.room ≡ thread.old.room }
{
    let Some(pointer) = pointer_of(value) else {
        unreachable!();
    };
    ask_object(work, thread, pointer);
    Prepared::Requested
}

// A hop that no event made ready yet: hop number `hop`, from 0.
fn write_by(
    work: &mut Work,
    thread: &mut Thread,
    hop: u8,
    at: &Spot,
    value: &Value,
    kind: Hop,
) -> Prepared
    requires few { hop < 255 }
    requires ready { is_prepared (write_by hop (spot at.now) value.now (Some kind) (hand work.old thread.old)) ≡ true }
    requires room { 1 < work.old.room }
    ensures state { write_by hop (spot at.now) value.now (Some kind) (hand work.old thread.old) ≡ prepared result (hand work.new thread.new) }
    ensures spare { work.old.room ≤ work.new.room + 2 }
    ensures copies { work.new.copies ≡ work.old.copies }
    ensures thread_room { thread.new.room ≡ thread.old.room }
{
    match kind {
        Hop::Slot(slot) => {
            thread.passed = hop + 1;
            Prepared::Ready(Spot::Slot(slot))
        }
        Hop::NeedTint(_) => {
            thread.passed = hop + 1;
            colour_box(work, thread, at, value)
        }
        Hop::AtCell(word) => {
            local(work, thread, value);
            thread.passed = hop + 1;
            Prepared::Ready(Spot::Cell(word, slot_in(at)))
        }
        Hop::NeedMove(_) => request(work, thread, value),
        _ => unreachable!(),
    }
}

// A hop that is ready: a box has its new word already.
fn pass_by(work: &mut Work, thread: &Thread, at: &Spot, value: &Value, kind: Hop) -> Prepared
    requires ready { is_prepared (pass_by (spot at.now) value.now (Some kind) (hand work.old thread.now)) ≡ true }
    requires room { 1 < work.old.room }
    ensures state { pass_by (spot at.now) value.now (Some kind) (hand work.old thread.now) ≡ prepared result (hand work.new thread.now) }
    ensures spare { work.old.room ≤ work.new.room + 2 }
    ensures copies { work.new.copies ≡ work.old.copies }
{
    match kind {
        Hop::Slot(slot) => Prepared::Ready(Spot::Slot(slot)),
        Hop::NeedTint(word) => Prepared::Ready(Spot::Cell(word, None)),
        Hop::AtCell(word) => {
            local(work, thread, value);
            Prepared::Ready(Spot::Cell(word, slot_in(at)))
        }
        _ => unreachable!(),
    }
}

// Hop number `hop` of a write from a value.
fn write_value(work: &mut Work, thread: &mut Thread, hop: u8, at: &Spot, value: &Value) -> Prepared
    requires few { hop < 255 }
    requires ready { is_prepared (write_value hop (spot at.now) (Some value.now) (hand work.old thread.old)) ≡ true }
    requires room { 1 < work.old.room }
    ensures state { write_value hop (spot at.now) (Some value.now) (hand work.old thread.old) ≡ prepared result (hand work.new thread.new) }
    ensures spare { work.old.room ≤ work.new.room + 2 }
    ensures copies { work.new.copies ≡ work.old.copies }
    ensures thread_room { thread.new.room ≡ thread.old.room }
{
    let kind = write_hop(value, work.number);
    if hop < thread.passed {
        pass_by(work, thread, at, value, kind)
    } else {
        write_by(work, thread, hop, at, value, kind)
    }
}

// Hop number `hop` of a write.
fn write_star(work: &mut Work, thread: &mut Thread, hop: u8, at: &Spot) -> Prepared
    requires few { hop < 255 }
    requires ready { is_prepared (write_star hop (hand work.old thread.old) (spot at.now)) ≡ true }
    requires room { 2 < work.old.room }
    ensures state { write_star hop (hand work.old thread.old) (spot at.now) ≡ prepared result (hand work.new thread.new) }
    ensures spare { work.old.room ≤ work.new.room + 3 }
    ensures copies { work.new.copies ≡ work.old.copies }
    ensures thread_room { thread.new.room ≡ thread.old.room }
{
    // The check asks that each type inside a value is named where a value is moved.
    let _inside: Option<Owned> = None;
    let Some(value) = value_at(work, thread, at) else {
        unreachable!();
    };
    load_at(work, thread, at);
    write_value(work, thread, hop, at, &value)
}

/// So many hops of a write, from hop number `hop` on.
pub(crate) fn write_stars(
    work: &mut Work,
    thread: &mut Thread,
    depth: u8,
    hop: u8,
    at: Spot,
) -> Prepared
    requires few { depth + hop ≤ 255 }
    requires ready { is_prepared (write_stars depth hop (hand work.old thread.old) (spot at)) ≡ true }
    requires room { 3 * depth ≤ work.old.room }
    ensures state { write_stars depth hop (hand work.old thread.old) (spot at) ≡ prepared result (hand work.new thread.new) }
    ensures spare { work.old.room ≤ work.new.room + 3 * depth }
    ensures copies { work.new.copies ≡ work.old.copies }
    ensures thread_room { thread.new.room ≡ thread.old.room }
{
    if depth == 0 {
        return Prepared::Ready(at);
    }
    match write_star(work, thread, hop, &at) {
        Prepared::Ready(next) => write_stars(work, thread, depth - 1, hop + 1, next),
        Prepared::Requested => Prepared::Requested,
    }
}
