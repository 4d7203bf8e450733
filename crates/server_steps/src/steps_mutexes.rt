//! The plain steps on mutexes.

ghost use Rattle.std.specs.Prelude.{◌≡◌, ◌+◌, ◌-◌, ◌^◌, ◌<◌, ◌≤◌, true, Some, IsSome};
ghost use Rattle.mutex_home.specs.Mutexes.{next_mutex};
ghost use Rattle.server_model.specs.Commit.{ask_dup, ask_lock, dup, lock, mutex, mutex_at, mutex_made, push_content, send_content, unlock};
ghost use Rattle.server_steps.specs.Committeds.{committed, is_committed};
ghost use Rattle.server_parts.specs.Hands.{hand};
ghost use Rattle.server_parts.specs.Spots.{spot};

use crate::committed::Committed;
use crate::operands::{pop_owned, pop_slot, push_slot, push_temp};
use crate::settling::go_on;
use fr_base::{Fresh, Label, MutexNo, Operand, Plain};
use heap_partition::Owned;
use journal::Act;
use server_msgs::Message;
use server_parts::{Spot, Work, load_at, value_at};
use thread_state::{Phase, Thread, Value};

// A new mutex here, its home.
fn mutex_made(work: &mut Work, thread: &mut Thread, value: Owned) -> MutexNo
    requires result { IsSome (mutex_made value (hand work.old thread.old)) }
    requires room { 0 < work.old.room }
    requires thread_room { 0 < thread.old.room }
    ensures number { result ≡ next_mutex work.old.state.rest.mutexes }
    ensures state { mutex_made value (hand work.old thread.old) ≡ Some (hand work.new thread.new) }
    ensures spare { work.old.room ≤ work.new.room + 1 }
    ensures copies { work.new.copies ≡ work.old.copies }
    ensures thread_spare { thread.old.room ≤ thread.new.room + 1 }
{
    let number = work.mutexes.make(value);
    work.room -= 1;
    push_temp(thread, Value::Own(Owned::Mutex(number)));
    number
}

// The mutex whose value stands at a spot.
fn mutex_at(work: &Work, thread: &Thread, at: &Spot) -> Option<MutexNo>
    ensures { result ≡ mutex_at (hand work.now thread.now) (spot at.now) }
{
    // The check asks that each type inside a value is named where a value is moved.
    let _inside: Option<Owned> = None;
    match value_at(work, thread, at) {
        Some(Value::Own(Owned::Mutex(mutex))) => Some(mutex),
        _ => None,
    }
}

/// The request of a dup.
pub(crate) fn ask_dup(work: &mut Work, thread: &mut Thread, mutex: MutexNo)
    requires room { 1 < work.old.room }
    ensures state { ask_dup (hand work.old thread.old) mutex ≡ hand work.new thread.new }
    ensures spare { work.old.room ≤ work.new.room + 2 }
    ensures copies { work.new.copies ≡ work.old.copies }
    ensures thread_room { thread.new.room ≡ thread.old.room }
{
    work.note(Act::AskDup(mutex));
    let message = Message::Dup(mutex, work.number, thread.number);
    work.send(mutex.home, message);
    thread.phase = Phase::WaitDup(mutex);
}

/// The request of a lock.
pub(crate) fn ask_lock(work: &mut Work, thread: &mut Thread, mutex: MutexNo)
    requires room { 1 < work.old.room }
    ensures state { ask_lock (hand work.old thread.old) mutex ≡ hand work.new thread.new }
    ensures spare { work.old.room ≤ work.new.room + 2 }
    ensures copies { work.new.copies ≡ work.old.copies }
    ensures thread_room { thread.new.room ≡ thread.old.room }
{
    work.note(Act::AskLock(mutex));
    let message = Message::Lock(mutex, work.number, thread.number);
    work.send(mutex.home, message);
    thread.phase = Phase::WaitLock(mutex);
}

// The content in a new slot, with the hidden slot below it.
fn push_content(work: &mut Work, thread: &mut Thread, mutex: MutexNo, content: Owned)
    requires room { 0 < work.old.room }
    requires thread_room { 1 < thread.old.room }
    ensures state { push_content content (hand work.old thread.old) mutex ≡ hand work.new thread.new }
    ensures spare { work.old.room ≤ work.new.room + 1 }
    ensures copies { work.new.copies ≡ work.old.copies }
    ensures thread_spare { thread.old.room ≤ thread.new.room + 2 }
{
    work.label(Label::Lock(mutex));
    push_slot(thread, Value::Held(mutex));
    push_slot(thread, Value::Own(content));
}

// The content goes to the home of its mutex.
fn send_content(work: &mut Work, thread: &Thread, mutex: MutexNo, content: Owned)
    requires room { 2 < work.old.room }
    ensures state { send_content mutex content (hand work.old thread.now) ≡ hand work.new thread.now }
    ensures spare { work.old.room ≤ work.new.room + 3 }
    ensures copies { work.new.copies ≡ work.old.copies }
{
    let _thread = thread; // named in the contract alone
    work.note(Act::GiveBack(mutex));
    work.label(Label::Unlock(mutex));
    work.send(mutex.home, Message::Unlock(mutex, content));
}

/// The last slot's value goes back as the content, and the hidden slot below it goes.
pub(crate) fn unlock(work: &mut Work, thread: &mut Thread)
    requires result { IsSome (unlock (hand work.old thread.old)) }
    requires room { 2 < work.old.room }
    ensures state { unlock (hand work.old thread.old) ≡ Some (hand work.new thread.new) }
    ensures pc { thread.new.state.pc ≡ thread.old.state.pc }
    ensures spare { work.old.room ≤ work.new.room + 3 }
    ensures copies { work.new.copies ≡ work.old.copies }
    ensures thread_room { thread.old.room ≤ thread.new.room }
{
    let _inside: Option<Plain> = None;
    let content = match pop_slot(thread) {
        Value::Own(content) => content,
        _ => unreachable!(),
    };
    let mutex = match pop_slot(thread) {
        Value::Held(mutex) => mutex,
        _ => unreachable!(),
    };
    send_content(work, thread, mutex, content);
}

/// A mutex of an owned value.
pub(crate) fn mutex(work: &mut Work, thread: &mut Thread, operand: Operand) -> Committed
    requires ready { is_committed (mutex operand (hand work.old thread.old)) ≡ true }
    requires few { thread.old.state.pc < 2 ^ 32 - 1 }
    requires room { 0 < work.old.room }
    requires thread_room { 0 < thread.old.room }
    ensures state { mutex operand (hand work.old thread.old) ≡ committed result (hand work.new thread.new) }
    ensures spare { work.old.room ≤ work.new.room + 1 }
    ensures copies { work.new.copies ≡ work.old.copies }
    ensures thread_spare { thread.old.room ≤ thread.new.room + 1 }
{
    let value = pop_owned(work, thread, operand);
    let number = mutex_made(work, thread, value);
    go_on(work, thread);
    Committed::Done(Fresh::Mutex(number))
}

/// A dup asks for one share more, and takes it once it is there.
pub(crate) fn dup(work: &mut Work, thread: &mut Thread, at: &Spot) -> Committed
    requires ready { is_committed (dup (spot at.now) thread.old.state.gift (hand work.old thread.old)) ≡ true }
    requires few { thread.old.state.pc < 2 ^ 32 - 1 }
    requires room { 1 < work.old.room }
    requires thread_room { 0 < thread.old.room }
    ensures state { dup (spot at.now) thread.old.state.gift (hand work.old thread.old) ≡ committed result (hand work.new thread.new) }
    ensures spare { work.old.room ≤ work.new.room + 2 }
    ensures copies { work.new.copies ≡ work.old.copies }
    ensures thread_spare { thread.old.room ≤ thread.new.room + 1 }
{
    let _inside: Option<Owned> = None;
    let Some(mutex) = mutex_at(work, thread, at) else {
        unreachable!();
    };
    match thread.gift {
        None => {
            ask_dup(work, thread, mutex);
            Committed::Waits
        }
        Some(share) => {
            thread.gift = None;
            load_at(work, thread, at);
            push_temp(thread, Value::Own(share));
            go_on(work, thread);
            Committed::Done(Fresh::None)
        }
    }
}

/// A lock asks for the content, and takes it once it is there.
pub(crate) fn lock(work: &mut Work, thread: &mut Thread, at: &Spot) -> Committed
    requires ready { is_committed (lock (spot at.now) thread.old.state.gift (hand work.old thread.old)) ≡ true }
    requires few { thread.old.state.pc < 2 ^ 32 - 1 }
    requires room { 1 < work.old.room }
    requires thread_room { 1 < thread.old.room }
    ensures state { lock (spot at.now) thread.old.state.gift (hand work.old thread.old) ≡ committed result (hand work.new thread.new) }
    ensures spare { work.old.room ≤ work.new.room + 2 }
    ensures copies { work.new.copies ≡ work.old.copies }
    ensures thread_spare { thread.old.room ≤ thread.new.room + 2 }
{
    let _inside: Option<Owned> = None;
    let Some(mutex) = mutex_at(work, thread, at) else {
        unreachable!();
    };
    match thread.gift {
        None => {
            ask_lock(work, thread, mutex);
            Committed::Waits
        }
        Some(content) => {
            thread.gift = None;
            load_at(work, thread, at);
            push_content(work, thread, mutex, content);
            go_on(work, thread);
            Committed::Done(Fresh::None)
        }
    }
}
