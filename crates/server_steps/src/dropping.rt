//! Values that a step lets go.

ghost use Rattle.std.specs.Prelude.{◌≡◌, ◌+◌, ◌<◌, ◌≤◌, Some, IsSome};
ghost use Rattle.server_model.specs.Commit.{label_dropped};
ghost use Rattle.server_model.specs.Drop.{drop_value, finish, unpin_ref};
ghost use Rattle.server_parts.specs.Hands.{hand};
ghost use Rattle.server_parts.specs.Spots.{spot};

use fr_base::{Label, Plain};
use heap_partition::Owned;
use mut_borrow::{MutRef, SharedRef};
use server_parts::{Spot, Work, set_pointer};
use thread_state::{Thread, Value};

/// What a step drops has its labels before the store that takes its place.
pub(crate) fn label_dropped(work: &mut Work, thread: &Thread, value: &Value)
    requires room { 0 < work.old.room }
    ensures state { label_dropped value.now (hand work.old thread.now) ≡ hand work.new thread.now }
    ensures spare { work.old.room ≤ work.new.room + 1 }
    ensures copies { work.new.copies ≡ work.old.copies }
{
    // The check asks that each type inside a value is named where a value is moved.
    let _inside: Option<Plain> = None;
    let _thread = thread; // named in the contract alone
    if let Value::Own(Owned::Box(pointer)) = *value {
        work.label(Label::Drop(pointer.object));
    }
}

// A pinned reference gives its use back.
fn unpin_ref(work: &mut Work, thread: &Thread, reference: SharedRef)
    requires result { IsSome (unpin_ref reference reference.pinned (hand work.old thread.now)) }
    ensures state { unpin_ref reference reference.pinned (hand work.old thread.now) ≡ Some (hand work.new thread.now) }
    ensures room { work.new.room ≡ work.old.room }
    ensures copies { work.new.copies ≡ work.old.copies }
{
    let _thread = thread; // named in the contract alone
    if reference.pinned {
        work.cache.unpin(reference.word);
    }
}

// A clean mutable reference ends, and the pointer at its holder gets its word.
fn finish(work: &mut Work, thread: &mut Thread, holder: &Spot, reference: MutRef)
    requires result { IsSome (finish (spot holder.now) reference (hand work.old thread.old)) }
    ensures state { finish (spot holder.now) reference (hand work.old thread.old) ≡ Some (hand work.new thread.new) }
    ensures pc { thread.new.state.pc ≡ thread.old.state.pc }
    ensures room { work.new.room ≡ work.old.room }
    ensures copies { work.new.copies ≡ work.old.copies }
    ensures thread_room { thread.new.room ≡ thread.old.room }
{
    if let Some(word) = reference.finish() {
        set_pointer(work, thread, holder, word);
    }
}

/// A value that was taken out is dropped; the spot is that of the holder's pointer where a mutable reference ends.
pub(crate) fn drop_value(work: &mut Work, thread: &mut Thread, holder: &Spot, value: &Value)
    requires result { IsSome (drop_value (spot holder.now) value.now (hand work.old thread.old)) }
    requires room { 1 < work.old.room }
    ensures state { drop_value (spot holder.now) value.now (hand work.old thread.old) ≡ Some (hand work.new thread.new) }
    ensures pc { thread.new.state.pc ≡ thread.old.state.pc }
    ensures spare { work.old.room ≤ work.new.room + 2 }
    ensures copies { work.new.copies ≡ work.old.copies }
    ensures thread_room { thread.new.room ≡ thread.old.room }
{
    match *value {
        Value::Own(owned) => work.give_up(owned),
        Value::Shared(reference) => unpin_ref(work, thread, reference),
        Value::Mut(reference) => finish(work, thread, holder, reference),
        _ => {}
    }
}
