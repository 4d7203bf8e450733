//! The plain steps on references, and those that drop a value.

ghost use Rattle.std.specs.Prelude.{◌≡◌, ◌+◌, ◌<◌, ◌≤◌, Some, IsSome};
ghost use Rattle.server_model.specs.Commit.{borrow, borrow_mut, discard, drop_slot, lent, lent_word, mutable_from, shared_from};
ghost use Rattle.server_parts.specs.Hands.{hand};
ghost use Rattle.server_parts.specs.Spots.{spot};

use crate::dropping::{drop_value, label_dropped};
use crate::operands::{pop_slot, pop_temp, push_temp};
use fr_base::Lval;
use heap_partition::Owned;
use mut_borrow::{MutRef, SharedRef};
use server_parts::{Spot, Work, value_at};
use thread_state::{Phase, Thread, Value};

// A shared reference from a pointer has its word, and pins nothing.
fn shared_from(value: &Value) -> Option<Value>
    ensures { result ≡ shared_from value.now }
{
    match *value {
        Value::SharedSlot(slot) | Value::MutSlot(slot) => Some(Value::SharedSlot(slot)),
        Value::Own(Owned::Box(pointer)) => Some(Value::Shared(SharedRef {
            word: pointer.word,
            object: pointer.object,
            pinned: false,
        })),
        Value::Shared(reference) => Some(Value::Shared(SharedRef {
            pinned: false,
            ..reference
        })),
        Value::Mut(reference) => Some(Value::Shared(SharedRef {
            word: reference.word,
            object: reference.object,
            pinned: false,
        })),
        _ => None,
    }
}

/// A shared borrow, of a variable or from a pointer.
pub(crate) fn borrow(work: &Work, thread: &mut Thread, place: Lval, at: &Spot)
    requires result { IsSome (borrow place (spot at.now) (hand work.now thread.old)) }
    requires room { 0 < thread.old.room }
    ensures state { borrow place (spot at.now) (hand work.now thread.old) ≡ Some (hand work.now thread.new) }
    ensures pc { thread.new.state.pc ≡ thread.old.state.pc }
    ensures room { thread.old.room ≤ thread.new.room + 1 }
{
    // The check asks that each type inside a value is named where a value is moved.
    let _inside: Option<Owned> = None;
    if place.depth == 0 {
        push_temp(thread, Value::SharedSlot(place.slot));
        return;
    }
    let Some(value) = value_at(work, thread, at) else {
        unreachable!();
    };
    let Some(reference) = shared_from(&value) else {
        unreachable!();
    };
    push_temp(thread, reference);
}

// The reference has the new word of an object that came for this borrow, and is clean.
fn lent_word(thread: &Thread, reference: MutRef) -> MutRef
    ensures { result ≡ lent_word thread.now.state.phase reference }
{
    let mut reference = reference;
    if let Phase::Taken(word) = &thread.phase {
        reference.took(*word);
    }
    reference
}

// A mutable reference from a pointer has its word and, from a mutable reference, its mark; its holder is the pointer's place.
fn mutable_from(thread: &Thread, holder: Lval, value: &Value) -> Option<Value>
    ensures { result ≡ mutable_from thread.now.state.phase holder value.now }
{
    match *value {
        Value::MutSlot(slot) => Some(Value::MutSlot(slot)),
        Value::Own(Owned::Box(pointer)) => {
            let new = MutRef::new(pointer.word, pointer.object, false, holder);
            Some(Value::Mut(lent_word(thread, new)))
        }
        Value::Mut(reference) => {
            let new = MutRef::new(reference.word, reference.object, reference.dirty, holder);
            Some(Value::Mut(lent_word(thread, new)))
        }
        _ => None,
    }
}

/// A mutable borrow, of a variable or from a pointer.
pub(crate) fn borrow_mut(work: &Work, thread: &mut Thread, place: Lval, at: &Spot)
    requires result { IsSome (borrow_mut place (spot at.now) (hand work.now thread.old)) }
    requires room { 0 < thread.old.room }
    ensures state { borrow_mut place (spot at.now) (hand work.now thread.old) ≡ Some (hand work.now thread.new) }
    ensures pc { thread.new.state.pc ≡ thread.old.state.pc }
    ensures room { thread.old.room ≤ thread.new.room + 1 }
{
    let _inside: Option<Owned> = None;
    if place.depth == 0 {
        push_temp(thread, Value::MutSlot(place.slot));
        return;
    }
    let Some(value) = value_at(work, thread, at) else {
        unreachable!();
    };
    let holder = Lval {
        slot: place.slot,
        depth: place.depth - 1,
    };
    let Some(reference) = mutable_from(thread, holder, &value) else {
        unreachable!();
    };
    push_temp(thread, reference);
}

/// The temporary value on top is dropped.
pub(crate) fn discard(work: &mut Work, thread: &mut Thread, at: &Spot)
    requires result { IsSome (discard (spot at.now) (hand work.old thread.old)) }
    requires room { 2 < work.old.room }
    ensures state { discard (spot at.now) (hand work.old thread.old) ≡ Some (hand work.new thread.new) }
    ensures pc { thread.new.state.pc ≡ thread.old.state.pc }
    ensures spare { work.old.room ≤ work.new.room + 3 }
    ensures copies { work.new.copies ≡ work.old.copies }
    ensures thread_room { thread.old.room ≤ thread.new.room }
{
    let value = pop_temp(thread);
    label_dropped(work, thread, &value);
    drop_value(work, thread, at, &value);
}

/// The last slot is dropped.
pub(crate) fn drop_slot(work: &mut Work, thread: &mut Thread, at: &Spot)
    requires result { IsSome (drop_slot (spot at.now) (hand work.old thread.old)) }
    requires room { 2 < work.old.room }
    ensures state { drop_slot (spot at.now) (hand work.old thread.old) ≡ Some (hand work.new thread.new) }
    ensures pc { thread.new.state.pc ≡ thread.old.state.pc }
    ensures spare { work.old.room ≤ work.new.room + 3 }
    ensures copies { work.new.copies ≡ work.old.copies }
    ensures thread_room { thread.old.room ≤ thread.new.room }
{
    let value = pop_slot(thread);
    label_dropped(work, thread, &value);
    drop_value(work, thread, at, &value);
}
