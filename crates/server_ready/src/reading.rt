//! Places that are read: each star is a hop, which is ready, or asks for a copy.

ghost use Rattle.std.specs.Prelude.{◌≡◌, ◌+◌, ◌*◌, ◌<◌, ◌≤◌, true, None, Some, IsSome};
ghost use Rattle.global_addr.specs.Words.{colour_of};
ghost use Rattle.place_walk.specs.Hops.{read_hop};
ghost use Rattle.server_model.specs.Prepare.{ask_copy, ask_object, clean_last, clean, pinned_once, use_copy, local, hit_by, read_by, read_value, tinted_first, read_star, read_stars};
ghost use Rattle.server_model.specs.Places.{value_at};
ghost use Rattle.server_ready.specs.Prepareds.{prepared, is_prepared};
ghost use Rattle.server_parts.specs.Spots.{spot, has_top};
ghost use Rattle.server_parts.specs.Hands.{hand};

use crate::prepared::Prepared;
use global_addr::Word;
use heap_partition::{BoxPtr, Owned};
use journal::Act;
use mut_borrow::{MutRef, SharedRef};
use place_walk::{Hop, read_hop};
use server_msgs::Message;
use server_parts::{
    Spot, Work, issue_renewal, issue_tint, load_at, pointer_of, put_at, set_pointer, use_word,
    value_at,
};
use thread_state::{Phase, Thread, Value};

/// Asks the word's server for a copy.
pub(crate) fn ask_copy(work: &mut Work, thread: &mut Thread, pointer: BoxPtr)
    requires room { 1 < work.old.room }
    ensures state { ask_copy pointer (hand work.old thread.old) ≡ hand work.new thread.new }
    ensures spare { work.old.room ≤ work.new.room + 2 }
    ensures copies { work.new.copies ≡ work.old.copies }
    ensures thread_room { thread.new.room ≡ thread.old.room }
{
    work.note(Act::Ask(pointer.object, pointer.word));
    let message = Message::Fetch(pointer.word, pointer.object, work.number, thread.number);
    work.send(pointer.word.server(), message);
    thread.phase = Phase::WaitCell(pointer.word);
}

/// Asks the word's server for the object.
pub(crate) fn ask_object(work: &mut Work, thread: &mut Thread, pointer: BoxPtr)
    requires room { 1 < work.old.room }
    ensures state { ask_object pointer (hand work.old thread.old) ≡ hand work.new thread.new }
    ensures spare { work.old.room ≤ work.new.room + 2 }
    ensures copies { work.new.copies ≡ work.old.copies }
    ensures thread_room { thread.new.room ≡ thread.old.room }
{
    work.note(Act::Pull(pointer.object, pointer.word));
    let message = Message::Move(pointer.word, pointer.object, work.number, thread.number);
    work.send(pointer.word.server(), message);
    thread.phase = Phase::WaitCell(pointer.word);
}

// The pointer to a reference's object.
fn box_of(reference: MutRef) -> BoxPtr
    ensures { result ≡ record { word = reference.word; object = reference.object } }
{
    BoxPtr {
        word: reference.word,
        object: reference.object,
    }
}

// A dirty reference at the last colour: its object is renewed where it is here, and else it has to come.
fn clean_last(work: &mut Work, thread: &mut Thread, at: &Spot, reference: MutRef) -> Prepared
    requires ready { is_prepared (clean_last (spot at.now) reference (hand work.old thread.old)) ≡ true }
    requires room { 1 < work.old.room }
    ensures state { clean_last (spot at.now) reference (hand work.old thread.old) ≡ prepared result (hand work.new thread.new) }
    ensures spare { work.old.room ≤ work.new.room + 2 }
    ensures copies { work.new.copies ≡ work.old.copies }
    ensures thread_room { thread.new.room ≡ thread.old.room }
{
    if reference.word.server() == work.number {
        let pointer = box_of(reference);
        let word = issue_renewal(work, pointer);
        set_pointer(work, thread, at, word);
        Prepared::Ready(*at)
    } else {
        let pointer = box_of(reference);
        ask_object(work, thread, pointer);
        Prepared::Requested
    }
}

/// A mutable reference at that spot is cleaned.
pub(crate) fn clean(work: &mut Work, thread: &mut Thread, at: &Spot, reference: MutRef) -> Prepared
    requires ready { is_prepared (clean (spot at.now) reference (hand work.old thread.old)) ≡ true }
    requires room { 1 < work.old.room }
    ensures state { clean (spot at.now) reference (hand work.old thread.old) ≡ prepared result (hand work.new thread.new) }
    ensures spare { work.old.room ≤ work.new.room + 2 }
    ensures copies { work.new.copies ≡ work.old.copies }
    ensures thread_room { thread.new.room ≡ thread.old.room }
{
    if !reference.dirty {
        return Prepared::Ready(*at);
    }
    if u32::from(reference.word.colour()) + 1 < work.partition.limit() {
        let pointer = box_of(reference);
        let word = issue_tint(work, pointer);
        set_pointer(work, thread, at, word);
        Prepared::Ready(*at)
    } else {
        clean_last(work, thread, at, reference)
    }
}

// A reference that isn't pinned pins its copy.
fn pinned_once(work: &mut Work, thread: &mut Thread, at: &Spot, reference: SharedRef)
    requires top { has_top (spot at.now) thread.old.state.temps ≡ true }
    requires result { IsSome (pinned_once (spot at.now) reference reference.pinned (hand work.old thread.old)) }
    ensures state { pinned_once (spot at.now) reference reference.pinned (hand work.old thread.old) ≡ Some (hand work.new thread.new) }
    ensures room { work.new.room ≡ work.old.room }
    ensures copies { work.new.copies ≡ work.old.copies }
    ensures thread_room { thread.new.room ≡ thread.old.room }
{
    // The check asks that each type inside a value is named where a value is moved.
    let _inside: Option<Owned> = None;
    if reference.pinned {
        return;
    }
    work.cache.pin(reference.word);
    let pinned = SharedRef {
        pinned: true,
        ..reference
    };
    put_at(work, thread, at, Value::Shared(pinned));
}

// A shared reference pins the copy at its first hit, and keeps it; a box or a clean mutable reference uses it until the step is done.
fn use_copy(work: &mut Work, thread: &mut Thread, at: &Spot, value: &Value, word: Word)
    requires top { has_top (spot at.now) thread.old.state.temps ≡ true }
    requires result { IsSome (use_copy (spot at.now) value.now word (hand work.old thread.old)) }
    requires room { 0 < thread.old.room }
    ensures state { use_copy (spot at.now) value.now word (hand work.old thread.old) ≡ Some (hand work.new thread.new) }
    ensures room { work.new.room ≡ work.old.room }
    ensures copies { work.new.copies ≡ work.old.copies }
    ensures spare { thread.old.room ≤ thread.new.room + 1 }
{
    match *value {
        Value::Shared(reference) => pinned_once(work, thread, at, reference),
        _ => use_word(work, thread, word),
    }
}

/// The pointer leads to an object here: the hop counts in the entry that does the step.
pub(crate) fn local(work: &mut Work, thread: &Thread, value: &Value)
    requires room { 0 < work.old.room }
    ensures state { local value.now (hand work.old thread.now) ≡ hand work.new thread.now }
    ensures spare { work.old.room ≤ work.new.room + 1 }
    ensures copies { work.new.copies ≡ work.old.copies }
{
    let _thread = thread; // named in the contract alone
    if let Some(pointer) = pointer_of(value) {
        work.note(Act::Local(pointer.object, pointer.word));
    }
}

// The pointer leads to a copy here.
fn hit_by(work: &mut Work, thread: &Thread, value: &Value)
    requires room { 0 < work.old.room }
    ensures state { hit_by value.now (hand work.old thread.now) ≡ hand work.new thread.now }
    ensures spare { work.old.room ≤ work.new.room + 1 }
    ensures copies { work.new.copies ≡ work.old.copies }
{
    let _thread = thread; // named in the contract alone
    if let Some(pointer) = pointer_of(value) {
        work.note(Act::Hit(pointer.object, pointer.word));
    }
}

// One hop of a read, by its kind.
fn read_by(work: &mut Work, thread: &mut Thread, at: &Spot, value: &Value, kind: Hop) -> Prepared
    requires top { has_top (spot at.now) thread.old.state.temps ≡ true }
    requires ready { is_prepared (read_by (spot at.now) value.now (Some kind) (hand work.old thread.old)) ≡ true }
    requires room { 1 < work.old.room }
    requires thread_room { 0 < thread.old.room }
    ensures state { read_by (spot at.now) value.now (Some kind) (hand work.old thread.old) ≡ prepared result (hand work.new thread.new) }
    ensures spare { work.old.room ≤ work.new.room + 2 }
    ensures copies { work.new.copies ≡ work.old.copies }
    ensures thread_spare { thread.old.room ≤ thread.new.room + 1 }
{
    match kind {
        Hop::Slot(slot) => Prepared::Ready(Spot::Slot(slot)),
        Hop::Direct(word) => {
            local(work, thread, value);
            Prepared::Ready(Spot::Cell(word, None))
        }
        Hop::Hit(word) => {
            hit_by(work, thread, value);
            use_copy(work, thread, at, value, word);
            Prepared::Ready(Spot::Copy(word))
        }
        Hop::NeedCopy(_) => {
            let Some(pointer) = pointer_of(value) else {
                unreachable!();
            };
            ask_copy(work, thread, pointer);
            Prepared::Requested
        }
        _ => unreachable!(),
    }
}

// One hop of a read from the value at a spot.
#[tactic(auto, using(server_parts::proofs::PlaceLemmas::value_there))]
fn read_value(work: &mut Work, thread: &mut Thread, at: &Spot) -> Prepared
    requires ready { is_prepared (read_value (spot at.now) (value_at (hand work.old thread.old) (spot at.now)) (hand work.old thread.old)) ≡ true }
    requires room { 1 < work.old.room }
    requires thread_room { 0 < thread.old.room }
    ensures state { read_value (spot at.now) (value_at (hand work.old thread.old) (spot at.now)) (hand work.old thread.old) ≡ prepared result (hand work.new thread.new) }
    ensures spare { work.old.room ≤ work.new.room + 2 }
    ensures copies { work.new.copies ≡ work.old.copies }
    ensures thread_spare { thread.old.room ≤ thread.new.room + 1 }
{
    let _inside: Option<Owned> = None;
    let Some(value) = value_at(work, thread, at) else {
        unreachable!();
    };
    let kind = read_hop(&value, work.number, &work.cache);
    read_by(work, thread, at, &value, kind)
}

// A dirty reference to an object elsewhere is cleaned first.
fn tinted_first(work: &mut Work, thread: &mut Thread, at: &Spot, value: &Value) -> Prepared
    requires ready { is_prepared (tinted_first (spot at.now) (Some value.now) (hand work.old thread.old)) ≡ true }
    requires room { 1 < work.old.room }
    ensures state { tinted_first (spot at.now) (Some value.now) (hand work.old thread.old) ≡ prepared result (hand work.new thread.new) }
    ensures spare { work.old.room ≤ work.new.room + 2 }
    ensures copies { work.new.copies ≡ work.old.copies }
    ensures thread_room { thread.new.room ≡ thread.old.room }
{
    match *value {
        Value::Mut(reference) if reference.dirty && reference.word.server() != work.number => {
            clean(work, thread, at, reference)
        }
        _ => Prepared::Ready(*at),
    }
}

// One hop of a read: a dirty reference to an object elsewhere is cleaned first.
fn read_star(work: &mut Work, thread: &mut Thread, at: &Spot) -> Prepared
    requires ready { is_prepared (read_star (hand work.old thread.old) (spot at.now)) ≡ true }
    requires room { 4 < work.old.room }
    requires thread_room { 0 < thread.old.room }
    ensures state { read_star (hand work.old thread.old) (spot at.now) ≡ prepared result (hand work.new thread.new) }
    ensures spare { work.old.room ≤ work.new.room + 5 }
    ensures copies { work.new.copies ≡ work.old.copies }
    ensures thread_spare { thread.old.room ≤ thread.new.room + 1 }
{
    let _inside: Option<Owned> = None;
    let Some(value) = value_at(work, thread, at) else {
        unreachable!();
    };
    load_at(work, thread, at);
    match tinted_first(work, thread, at, &value) {
        Prepared::Ready(here) => read_value(work, thread, &here),
        Prepared::Requested => Prepared::Requested,
    }
}

/// So many hops of a read.
pub(crate) fn read_stars(work: &mut Work, thread: &mut Thread, depth: u8, at: Spot) -> Prepared
    requires ready { is_prepared (read_stars depth (hand work.old thread.old) (spot at)) ≡ true }
    requires room { 5 * depth ≤ work.old.room }
    requires thread_room { depth ≤ thread.old.room }
    ensures state { read_stars depth (hand work.old thread.old) (spot at) ≡ prepared result (hand work.new thread.new) }
    ensures spare { work.old.room ≤ work.new.room + 5 * depth }
    ensures copies { work.new.copies ≡ work.old.copies }
    ensures thread_spare { thread.old.room ≤ thread.new.room + depth }
{
    if depth == 0 {
        return Prepared::Ready(at);
    }
    match read_star(work, thread, &at) {
        Prepared::Ready(next) => read_stars(work, thread, depth - 1, next),
        Prepared::Requested => Prepared::Requested,
    }
}
