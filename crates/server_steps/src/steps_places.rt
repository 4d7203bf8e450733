//! The plain steps on slots and places.

ghost use Rattle.std.specs.Prelude.{◌≡◌, ◌+◌, ◌<◌, ◌≤◌, false, true, Some, IfSome, IsSome};
ghost use Rattle.server_model.specs.Commit.{let_slot, replace_slot, store_at, replace_at, assign, take_out, read_as, read};
ghost use Rattle.server_model.specs.Places.{second_of};
ghost use Rattle.thread_state.specs.View.{is_pinned};
ghost use Rattle.server_parts.specs.Hands.{hand};
ghost use Rattle.server_parts.specs.Spots.{spot, has_top};

use crate::dropping::{drop_value, label_dropped};
use crate::operands::{pop, pop_owned, push_slot, push_temp};
use fr_base::{Label, Lval, Operand, Plain};
use heap_partition::Owned;
use mut_borrow::SharedRef;
use server_parts::{Spot, Work, cell_at, load_at, plain_of, put_at, put_slot, value_at};
use thread_state::{Thread, Value};

/// A new variable.
pub(crate) fn let_slot(work: &Work, thread: &mut Thread, operand: Operand)
    requires result { IsSome (let_slot operand (hand work.now thread.old)) }
    requires room { 0 < thread.old.room }
    ensures state { let_slot operand (hand work.now thread.old) ≡ Some (hand work.now thread.new) }
    ensures pc { thread.new.state.pc ≡ thread.old.state.pc }
    ensures room { thread.old.room ≤ thread.new.room + 1 }
{
    let value = pop(work, thread, operand);
    push_slot(thread, value);
}

// A variable gets a value, and what came out is dropped.
fn replace_slot(work: &mut Work, thread: &mut Thread, slot: u32, holder: &Spot, value: Value)
    requires result { IsSome (replace_slot slot (spot holder.now) value (hand work.old thread.old)) }
    requires room { 2 < work.old.room }
    ensures state { replace_slot slot (spot holder.now) value (hand work.old thread.old) ≡ Some (hand work.new thread.new) }
    ensures pc { thread.new.state.pc ≡ thread.old.state.pc }
    ensures spare { work.old.room ≤ work.new.room + 3 }
    ensures copies { work.new.copies ≡ work.old.copies }
    ensures thread_room { thread.new.room ≡ thread.old.room }
{
    // The check asks that each type inside a value is named where a value is moved.
    let _inside: Option<Owned> = None;
    let Some(old) = thread.slots.get(slot as usize).copied() else {
        unreachable!();
    };
    label_dropped(work, thread, &old);
    put_slot(work, thread, slot, value);
    drop_value(work, thread, holder, &old);
}

// An owned value is put at a spot where one stands; in a cell that is a store.
#[tactic(auto, using(server_parts::proofs::PlaceLemmas::value_there))]
fn store_at(work: &mut Work, thread: &mut Thread, at: &Spot, value: Owned)
    requires top { has_top (spot at.now) thread.old.state.temps ≡ true }
    requires result { IsSome (store_at (spot at.now) value (hand work.old thread.old)) }
    requires room { 0 < work.old.room }
    ensures state { store_at (spot at.now) value (hand work.old thread.old) ≡ Some (hand work.new thread.new) }
    ensures pc { thread.new.state.pc ≡ thread.old.state.pc }
    ensures spare { work.old.room ≤ work.new.room + 1 }
    ensures copies { work.new.copies ≡ work.old.copies }
    ensures thread_room { thread.new.room ≡ thread.old.room }
{
    let _inside: Option<(Owned, Plain)> = None;
    if let Some(cell) = cell_at(work, thread, at) {
        let plain = plain_of(&value);
        work.label(Label::Store(cell.object, plain));
    }
    put_at(work, thread, at, Value::Own(value));
}

// What a place leads to gets an owned value, and what came out is dropped.
#[tactic(auto, using(server_parts::proofs::PlaceLemmas::value_there))]
fn replace_at(work: &mut Work, thread: &mut Thread, at: &Spot, value: Owned)
    requires result { IsSome (replace_at (spot at.now) value (hand work.old thread.old)) }
    requires room { 3 < work.old.room }
    ensures state { replace_at (spot at.now) value (hand work.old thread.old) ≡ Some (hand work.new thread.new) }
    ensures pc { thread.new.state.pc ≡ thread.old.state.pc }
    ensures spare { work.old.room ≤ work.new.room + 4 }
    ensures copies { work.new.copies ≡ work.old.copies }
    ensures thread_room { thread.new.room ≡ thread.old.room }
{
    let _inside: Option<Owned> = None;
    let Some(old) = value_at(work, thread, at) else {
        unreachable!();
    };
    label_dropped(work, thread, &old);
    store_at(work, thread, at, value);
    drop_value(work, thread, &Spot::Nowhere, &old);
}

/// An assignment to a variable, or through a star.
pub(crate) fn assign(work: &mut Work, thread: &mut Thread, place: Lval, operand: Operand, at: &Spot)
    requires result { IsSome (assign place place.depth operand (spot at.now) (hand work.old thread.old)) }
    requires room { 3 < work.old.room }
    ensures state { assign place place.depth operand (spot at.now) (hand work.old thread.old) ≡ Some (hand work.new thread.new) }
    ensures pc { thread.new.state.pc ≡ thread.old.state.pc }
    ensures spare { work.old.room ≤ work.new.room + 4 }
    ensures copies { work.new.copies ≡ work.old.copies }
    ensures thread_room { thread.old.room ≤ thread.new.room }
{
    if place.depth == 0 {
        let value = pop(work, thread, operand);
        replace_slot(work, thread, place.slot, at, value);
    } else {
        let value = pop_owned(work, thread, operand);
        replace_at(work, thread, at, value);
    }
}

/// A second value like this one, of which there may be one; it pins nothing.
pub(crate) fn second_of(value: &Value) -> Option<Value>
    ensures value { result ≡ second_of value.now }
    ensures packed { IfSome result (λ v. is_pinned v ≡ false) }
{
    match *value {
        Value::Own(Owned::Box(_)) => None,
        Value::Own(Owned::Mutex(_)) => None,
        Value::Own(Owned::Task(_)) => None,
        Value::Own(owned) => Some(Value::Own(owned)),
        Value::SharedSlot(slot) => Some(Value::SharedSlot(slot)),
        Value::Shared(reference) => Some(Value::Shared(SharedRef {
            pinned: false,
            ..reference
        })),
        _ => None,
    }
}

// A move out leaves `Gone` in a slot and `Nothing` in a cell.
fn take_out(work: &mut Work, thread: &mut Thread, at: &Spot)
    requires top { has_top (spot at.now) thread.old.state.temps ≡ true }
    requires result { IsSome (take_out (spot at.now) (hand work.old thread.old)) }
    requires room { 0 < work.old.room }
    ensures state { take_out (spot at.now) (hand work.old thread.old) ≡ Some (hand work.new thread.new) }
    ensures pc { thread.new.state.pc ≡ thread.old.state.pc }
    ensures spare { work.old.room ≤ work.new.room + 1 }
    ensures copies { work.new.copies ≡ work.old.copies }
    ensures thread_room { thread.new.room ≡ thread.old.room }
{
    match *at {
        Spot::Slot(slot) => put_slot(work, thread, slot, Value::Gone),
        _ => store_at(work, thread, at, Owned::Nothing),
    }
}

// The value goes on top as it is, and its place is left; or a second one does.
fn read_as(work: &mut Work, thread: &mut Thread, take: bool, at: &Spot, value: &Value)
    requires top { has_top (spot at.now) thread.old.state.temps ≡ true }
    requires result { IsSome (read_as take (spot at.now) value.now (hand work.old thread.old)) }
    requires room { 0 < work.old.room }
    requires thread_room { 0 < thread.old.room }
    ensures state { read_as take (spot at.now) value.now (hand work.old thread.old) ≡ Some (hand work.new thread.new) }
    ensures pc { thread.new.state.pc ≡ thread.old.state.pc }
    ensures spare { work.old.room ≤ work.new.room + 1 }
    ensures copies { work.new.copies ≡ work.old.copies }
    ensures thread_spare { thread.old.room ≤ thread.new.room + 1 }
{
    let _inside: Option<Owned> = None;
    if take {
        take_out(work, thread, at);
        push_temp(thread, *value);
    } else {
        let Some(second) = second_of(value) else {
            unreachable!();
        };
        push_temp(thread, second);
    }
}

/// The value at a place is read: taken out, or a second one like it.
#[tactic(auto, using(server_parts::proofs::PlaceLemmas::value_there))]
pub(crate) fn read(work: &mut Work, thread: &mut Thread, take: bool, at: &Spot)
    requires result { IsSome (read take (spot at.now) (hand work.old thread.old)) }
    requires room { 1 < work.old.room }
    requires thread_room { 0 < thread.old.room }
    ensures state { read take (spot at.now) (hand work.old thread.old) ≡ Some (hand work.new thread.new) }
    ensures pc { thread.new.state.pc ≡ thread.old.state.pc }
    ensures spare { work.old.room ≤ work.new.room + 2 }
    ensures copies { work.new.copies ≡ work.old.copies }
    ensures thread_spare { thread.old.room ≤ thread.new.room + 1 }
{
    let _inside: Option<Owned> = None;
    let Some(value) = value_at(work, thread, at) else {
        unreachable!();
    };
    load_at(work, thread, at);
    read_as(work, thread, take, at, &value);
}
