//! What an instruction needs of a place, made ready.

ghost use Rattle.std.specs.Prelude.{◌≡◌, ◌+◌, ◌*◌, ◌<◌, ◌≤◌, true, Some};
ghost use Rattle.server_model.specs.Prepare.{clean_value, end_ref, follow_ended, is_taken, lend_pointer, lend_value, prepare, read_pointer};
ghost use Rattle.server_parts.specs.Accesses.{access_in};
ghost use Rattle.server_parts.specs.Hands.{hand};
ghost use Rattle.server_ready.specs.Prepareds.{prepared, is_prepared};
ghost use Rattle.server_parts.specs.Spots.{spot};
ghost use Rattle.server_ready.specs.Stars.{ended_stars, own_value, stars};

use crate::prepared::Prepared;
use crate::reading::{clean, read_stars};
use crate::writing::{request, write_stars};
use fr_base::Lval;
use heap_partition::Owned;
use place_walk::{Hop, write_hop};
use server_parts::{Access, Spot, Work, load_at, value_at};
use thread_state::{Phase, Thread, Value};

// A mutable reference is cleaned, and other values stay.
fn clean_value(work: &mut Work, thread: &mut Thread, at: &Spot, value: Option<Value>) -> Prepared
    requires ready { is_prepared (clean_value (spot at.now) value (hand work.old thread.old)) ≡ true }
    requires room { 1 < work.old.room }
    ensures state { clean_value (spot at.now) value (hand work.old thread.old) ≡ prepared result (hand work.new thread.new) }
    ensures spare { work.old.room ≤ work.new.room + 2 }
    ensures copies { work.new.copies ≡ work.old.copies }
    ensures thread_room { thread.new.room ≡ thread.old.room }
{
    // The check asks that each type inside a value is named where a value is moved.
    let _inside: Option<Owned> = None;
    match value {
        Some(Value::Mut(reference)) => clean(work, thread, at, reference),
        _ => Prepared::Ready(*at),
    }
}

/// A shared borrow reads the place up to the pointer, and cleans a dirty reference there, also where its object is here.
pub(crate) fn read_pointer(work: &mut Work, thread: &mut Thread, place: Lval) -> Prepared
    requires ready { is_prepared (read_pointer place place.depth (hand work.old thread.old)) ≡ true }
    requires room { 5 * place.depth ≤ work.old.room }
    requires thread_room { place.depth ≤ thread.old.room }
    ensures state { read_pointer place place.depth (hand work.old thread.old) ≡ prepared result (hand work.new thread.new) }
    ensures spare { work.old.room ≤ work.new.room + 5 * place.depth }
    ensures copies { work.new.copies ≡ work.old.copies }
    ensures thread_spare { thread.old.room ≤ thread.new.room + place.depth }
{
    let _inside: Option<Owned> = None;
    if place.depth == 0 {
        return Prepared::Ready(Spot::Slot(place.slot));
    }
    match read_stars(work, thread, place.depth - 1, Spot::Slot(place.slot)) {
        Prepared::Ready(at) => {
            let value = value_at(work, thread, &at);
            load_at(work, thread, &at);
            clean_value(work, thread, &at, value)
        }
        Prepared::Requested => Prepared::Requested,
    }
}

// The object was pulled for this mutable borrow by an earlier event.
fn is_taken(thread: &Thread) -> bool
    ensures { result ≡ is_taken thread.now.state.phase }
{
    matches!(&thread.phase, Phase::Taken(_))
}

// The pointer of a mutable borrow, whose object has to come where it is elsewhere.
fn lend_value(work: &mut Work, thread: &mut Thread, at: &Spot, value: &Value) -> Prepared
    requires ready { is_prepared (lend_value (spot at.now) (Some value.now) (hand work.old thread.old)) ≡ true }
    requires room { 1 < work.old.room }
    ensures state { lend_value (spot at.now) (Some value.now) (hand work.old thread.old) ≡ prepared result (hand work.new thread.new) }
    ensures spare { work.old.room ≤ work.new.room + 2 }
    ensures copies { work.new.copies ≡ work.old.copies }
    ensures thread_room { thread.new.room ≡ thread.old.room }
{
    match write_hop(value, work.number) {
        Hop::NeedMove(_) => {
            if is_taken(thread) {
                Prepared::Ready(*at)
            } else {
                request(work, thread, value)
            }
        }
        _ => Prepared::Ready(*at),
    }
}

/// A mutable borrow reads the place up to the pointer; the object comes where it is elsewhere, and its holder isn't changed.
pub(crate) fn lend_pointer(work: &mut Work, thread: &mut Thread, place: Lval) -> Prepared
    requires ready { is_prepared (lend_pointer place place.depth (hand work.old thread.old)) ≡ true }
    requires room { 5 * place.depth ≤ work.old.room }
    requires thread_room { place.depth ≤ thread.old.room }
    ensures state { lend_pointer place place.depth (hand work.old thread.old) ≡ prepared result (hand work.new thread.new) }
    ensures spare { work.old.room ≤ work.new.room + 5 * place.depth }
    ensures copies { work.new.copies ≡ work.old.copies }
    ensures thread_spare { thread.old.room ≤ thread.new.room + place.depth }
{
    let _inside: Option<Owned> = None;
    if place.depth == 0 {
        return Prepared::Ready(Spot::Slot(place.slot));
    }
    match read_stars(work, thread, place.depth - 1, Spot::Slot(place.slot)) {
        Prepared::Ready(at) => {
            let Some(value) = value_at(work, thread, &at) else {
                unreachable!();
            };
            load_at(work, thread, &at);
            lend_value(work, thread, &at, &value)
        }
        Prepared::Requested => Prepared::Requested,
    }
}

// The holder's place is followed where its pointer gets a word.
fn follow_ended(work: &mut Work, thread: &mut Thread, value: Option<Value>) -> Prepared
    requires ready { is_prepared (follow_ended value (hand work.old thread.old)) ≡ true }
    requires room { 3 * ended_stars value ≤ work.old.room }
    ensures state { follow_ended value (hand work.old thread.old) ≡ prepared result (hand work.new thread.new) }
    ensures spare { work.old.room ≤ work.new.room + 3 * ended_stars value }
    ensures copies { work.new.copies ≡ work.old.copies }
    ensures thread_room { thread.new.room ≡ thread.old.room }
{
    let _inside: Option<Owned> = None;
    let Some(Value::Mut(reference)) = value else {
        unreachable!();
    };
    if reference.word == reference.first {
        return Prepared::Ready(Spot::Nowhere);
    }
    let holder = reference.holder;
    write_stars(work, thread, holder.depth, 0, Spot::Slot(holder.slot))
}

// A mutable reference that ends is cleaned, and where its holder's pointer gets its word, the holder's place is followed for writing.
#[tactic(auto, using(crate::proofs::EndLemmas::cleaned_ends))]
fn end_ref(work: &mut Work, thread: &mut Thread, at: &Spot) -> Prepared
    requires ready { is_prepared (end_ref (spot at.now) (hand work.old thread.old)) ≡ true }
    requires room { 5 * ended_stars (own_value (spot at.now) thread.old.state) ≤ work.old.room }
    ensures state { end_ref (spot at.now) (hand work.old thread.old) ≡ prepared result (hand work.new thread.new) }
    ensures spare { work.old.room ≤ work.new.room + 5 * ended_stars (own_value (spot at.now) thread.old.state) }
    ensures copies { work.new.copies ≡ work.old.copies }
    ensures thread_room { thread.new.room ≡ thread.old.room }
{
    let _inside: Option<Owned> = None;
    let value = value_at(work, thread, at);
    match clean_value(work, thread, at, value) {
        Prepared::Ready(here) => {
            let ended = value_at(work, thread, &here);
            match follow_ended(work, thread, ended) {
                Prepared::Ready(holder) => {
                    work.unlabel();
                    Prepared::Ready(holder)
                }
                Prepared::Requested => Prepared::Requested,
            }
        }
        Prepared::Requested => Prepared::Requested,
    }
}

/// Makes an access ready, as far as that is possible here.
pub fn prepare(work: &mut Work, thread: &mut Thread, access: Option<Access>) -> Prepared
    requires ready { is_prepared (prepare (access_in access) (hand work.old thread.old)) ≡ true }
    requires room { 5 * stars (access_in access) thread.old.state ≤ work.old.room }
    requires thread_room { stars (access_in access) thread.old.state ≤ thread.old.room }
    ensures state { prepare (access_in access) (hand work.old thread.old) ≡ prepared result (hand work.new thread.new) }
    ensures spare { work.old.room ≤ work.new.room + 5 * stars (access_in access) thread.old.state }
    ensures copies { work.new.copies ≡ work.old.copies }
    ensures thread_spare { thread.old.room ≤ thread.new.room + stars (access_in access) thread.old.state }
{
    match access {
        None => Prepared::Ready(Spot::Nowhere),
        Some(Access::ReadTo(place)) => {
            read_stars(work, thread, place.depth, Spot::Slot(place.slot))
        }
        Some(Access::ReadPointer(place)) => read_pointer(work, thread, place),
        Some(Access::WriteTo(place)) => {
            write_stars(work, thread, place.depth, 0, Spot::Slot(place.slot))
        }
        Some(Access::LendTo(place)) => lend_pointer(work, thread, place),
        Some(Access::EndRef(at)) => end_ref(work, thread, &at),
    }
}
