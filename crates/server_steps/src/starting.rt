//! How threads start.

ghost use Rattle.std.specs.Prelude.{◌≡◌, ◌+◌, ◌-◌, ◌^◌, ◌<◌, ◌≤◌, false, [], Some, IsSome, IfSome, All, length, slice_get, vec_len};
ghost use Rattle.std.specs.Vec.{vec_capacity};
ghost use Rattle.server_model.specs.Commit.{begun, pair_begun};
ghost use Rattle.server_model.specs.Start.{capture, captured, left_after, next_thread, server_for, start_thread};
ghost use Rattle.thread_state.specs.View.{is_pinned};
ghost use Rattle.server_parts.specs.Hands.{hand};

use crate::steps_places::second_of;
use fr_base::{Label, ThreadNo};
use heap_partition::Owned;
use journal::Act;
use server_msgs::Message;
use server_parts::Work;
use std::alloc::Global;
use thread_state::{BoxedThread, Parcel, Thread, Value};

// What a new thread captures of a value.
fn captured(branch: bool, moves: bool, value: &Value) -> Option<Value>
    ensures value { result ≡ captured branch moves value.now }
    ensures packed { IfSome result (λ v. is_pinned v ≡ false) }
{
    // The check asks that each type inside a value is named where a value is moved.
    let _inside: Option<Owned> = None;
    match value {
        Value::Own(_) => {
            if moves {
                Some(*value)
            } else {
                second_of(value)
            }
        }
        Value::Shared(_) => {
            if branch && !moves {
                second_of(value)
            } else {
                None
            }
        }
        _ => None,
    }
}

// What a capture leaves of the slots.
fn leave(moves: bool, slots: &mut Vec<Value>, slot: u32)
    requires there { IsSome (slice_get slots.old.items slot) }
    ensures items { slots.new.items ≡ left_after moves slots.old.items slot }
    ensures capacity { vec_capacity slots.new ≡ vec_capacity slots.old }
    ensures len { vec_len slots.new ≡ vec_len slots.old }
{
    if moves {
        slots[slot as usize] = Value::Gone;
    }
}

// The captured values in order, and what is left of the slots.
fn capture_all(branch: bool, captures: &[(u32, bool)], slots: &mut Vec<Value>, new: &mut Vec<Value>)
    requires result { IsSome (capture branch captures.now slots.old.items) }
    requires empty { new.old.items ≡ [] }
    requires room { length captures.now ≤ vec_capacity new.old }
    ensures slots { capture branch captures.now slots.old.items ≡ Some (new.new.items, slots.new.items) }
    ensures packed { All (λ v. is_pinned v ≡ false) new.new.items }
    ensures capacity { vec_capacity slots.new ≡ vec_capacity slots.old }
    ensures len { vec_len slots.new ≡ vec_len slots.old }
{
    // The check asks that each type inside a value is named where a value is moved.
    let _inside: Option<Owned> = None;
    'captures: for capture in captures {
        let value = slots[capture.0 as usize];
        let Some(taken) = captured(branch, capture.1, &value) else {
            unreachable!();
        };
        leave(capture.1, slots, capture.0);
        new.push_reserved(taken);
    }
}

/// The captures of a new thread go to its slots, in order.
pub(crate) fn capture(
    branch: bool,
    captures: &[(u32, bool)],
    thread: &mut Thread,
    new: &mut Vec<Value>,
)
    requires result { IsSome (capture branch captures.now thread.old.state.slots) }
    requires empty { new.old.items ≡ [] }
    requires room { length captures.now ≤ vec_capacity new.old }
    ensures slots { capture branch captures.now thread.old.state.slots ≡ Some (new.new.items, thread.new.state.slots) }
    ensures packed { All (λ v. is_pinned v ≡ false) new.new.items }
    ensures state { thread.new.state ≡ record thread.old.state { slots = thread.new.state.slots } }
    ensures thread_room { thread.new.room ≡ thread.old.room }
{
    capture_all(branch, captures, &mut thread.slots, new);
}

// The next thread that the server starts.
fn next_thread(work: &Work) -> ThreadNo
    requires few { work.now.state.rest.started < 2 ^ 32 - 1 }
    ensures { result ≡ next_thread work.now.state.rest }
{
    ThreadNo::new(work.number, work.started + 1)
}

// The server of the next thread.
fn server_for(work: &Work, servers: u8) -> u8
    requires servers { 0 < servers }
    requires few { work.now.state.rest.started < 2 ^ 32 - 1 }
    ensures { result ≡ server_for servers work.now.state.rest }
{
    let place = u64::from(work.number) + (u64::from(work.started) + 1);
    (place % u64::from(servers)) as u8
}

/// The thread that starts is noted here, its home.
pub(crate) fn begun(work: &mut Work, thread: &Thread) -> ThreadNo
    requires result { IsSome (begun (hand work.old thread.now)) }
    requires few { work.old.state.rest.started < 2 ^ 32 - 1 }
    requires room { 0 < work.old.room }
    ensures number { result ≡ next_thread work.old.state.rest }
    ensures state { begun (hand work.old thread.now) ≡ Some (hand work.new thread.now) }
    ensures spare { work.old.room ≤ work.new.room + 1 }
    ensures copies { work.new.copies ≡ work.old.copies }
{
    let _thread = thread; // named in the contract alone
    let number = next_thread(work);
    work.tasks.begin(number);
    work.room -= 1;
    number
}

/// Both threads of a pair are noted here, their home.
pub(crate) fn pair_begun(work: &mut Work, thread: &Thread, first: ThreadNo, second: ThreadNo)
    requires result { IsSome (pair_begun (hand work.old thread.now) first second) }
    requires room { 0 < work.old.room }
    ensures state { pair_begun (hand work.old thread.now) first second ≡ Some (hand work.new thread.now) }
    ensures spare { work.old.room ≤ work.new.room + 1 }
    ensures copies { work.new.copies ≡ work.old.copies }
{
    work.tasks.begin_pair(thread.number, first, second);
    work.room -= 1;
}

/// A new thread goes to its server, in that box.
pub(crate) fn start_thread(
    alloc: Global,
    work: &mut Work,
    servers: u8,
    pc: u32,
    slots: Vec<Value>,
    boxed: BoxedThread,
)
    requires servers { 0 < servers }
    requires few { work.old.state.rest.started < 2 ^ 32 - 1 }
    requires packed { All (λ v. is_pinned v ≡ false) slots.items }
    requires room { 2 < work.old.room }
    ensures state { work.new.state ≡ start_thread servers pc slots.items work.old.state }
    ensures spare { work.old.room ≤ work.new.room + 3 }
    ensures copies { work.new.copies ≡ work.old.copies }
{
    let number = next_thread(work);
    let target = server_for(work, servers);
    work.started += 1;
    work.note(Act::Start(number, target));
    work.label(Label::Start(number));
    let mut boxed = boxed;
    *boxed.thread = Thread::new(alloc, number, pc, slots);
    work.send(target, Message::Start(Parcel::new(boxed)));
}
