//! The plain steps that start threads.

ghost use Rattle.std.specs.Prelude.{◌≡◌, ◌+◌, ◌-◌, ◌^◌, ◌<◌, ◌≤◌, true, length};
ghost use Rattle.server_model.specs.Commit.{commit, spawn};
ghost use Rattle.server_model.specs.Places.{nowhere};
ghost use Rattle.server_model.specs.Start.{next_thread};
ghost use Rattle.server_steps.specs.Committeds.{committed, is_committed, starts_pair};
ghost use Rattle.server_parts.specs.Spares.{HasSpares};
ghost use Rattle.server_parts.specs.Hands.{hand};

use crate::committed::Committed;
use crate::operands::push_temp;
use crate::settling::go_on;
use crate::starting::{begun, capture, pair_begun, start_thread};
use fr_base::{Captures, Fresh, Instr, ThreadNo};
use heap_partition::Owned;
use server_parts::{Spares, Work};
use thread_state::{Phase, Thread, Value};

/// A thread starts with owned values.
pub(crate) fn spawn(
    work: &mut Work,
    thread: &mut Thread,
    servers: u8,
    captures: &Captures,
    pc: u32,
    spares: &mut Spares,
) -> Committed
    requires ready { is_committed (spawn servers captures.now pc (hand work.old thread.old)) ≡ true }
    requires servers { 0 < servers }
    requires started { work.old.state.rest.started < 2 ^ 32 - 2 }
    requires few { thread.old.state.pc < 2 ^ 32 - 1 }
    requires room { 3 < work.old.room }
    requires thread_room { 0 < thread.old.room }
    requires slots { length captures.now.items ≤ spares.old.first }
    requires boxes { 1 ≤ spares.old.boxes }
    ensures state { spawn servers captures.now pc (hand work.old thread.old) ≡ committed result (hand work.new thread.new) }
    ensures spare { work.old.room ≤ work.new.room + 4 }
    ensures copies { work.new.copies ≡ work.old.copies }
    ensures thread_spare { thread.old.room ≤ thread.new.room + 1 }
{
    let alloc = spares.alloc;
    let mut slots = spares.take_first();
    let boxed = spares.take_box();
    capture(false, captures.as_slice(), thread, &mut slots);
    let number = begun(work, thread);
    start_thread(alloc, work, servers, pc, slots, boxed);
    push_temp(thread, Value::Own(Owned::Task(number)));
    go_on(work, thread);
    Committed::Done(Fresh::Thread(number))
}

// The names of the pair that the server starts next.
fn pair_names(work: &Work) -> (ThreadNo, ThreadNo)
    requires started { work.now.state.rest.started < 2 ^ 32 - 2 }
    ensures first { result.0 ≡ next_thread work.now.state.rest }
    ensures second { result.1 ≡ next_thread work.now.state.rest + 1 }
{
    let first = ThreadNo::new(work.number, work.started + 1);
    (first, ThreadNo::new(work.number, work.started + 2))
}

/// Two threads start, the first list's first, and their parent waits for both.
pub(crate) fn par(
    work: &mut Work,
    thread: &mut Thread,
    servers: u8,
    instr: &Instr,
    spares: &mut Spares,
) -> Committed
    requires starts { starts_pair instr.now ≡ true }
    requires ready { is_committed (commit servers instr.now nowhere (hand work.old thread.old)) ≡ true }
    requires servers { 0 < servers }
    requires started { work.old.state.rest.started < 2 ^ 32 - 2 }
    requires few { thread.old.state.pc < 2 ^ 32 - 1 }
    requires room { 6 < work.old.room }
    requires slots { HasSpares spares.old instr.now }
    ensures state { commit servers instr.now nowhere (hand work.old thread.old) ≡ committed result (hand work.new thread.new) }
    ensures spare { work.old.room ≤ work.new.room + 7 }
    ensures copies { work.new.copies ≡ work.old.copies }
    ensures thread_room { thread.new.room ≡ thread.old.room }
{
    let Instr::Par(captures, pc, others, other) = instr else {
        unreachable!();
    };
    let alloc = spares.alloc;
    let mut ours = spares.take_first();
    let mut theirs = spares.take_second();
    let (one, two) = (spares.take_box(), spares.take_box());
    capture(true, captures.as_slice(), thread, &mut ours);
    capture(true, others.as_slice(), thread, &mut theirs);
    let (first, second) = pair_names(work);
    pair_begun(work, thread, first, second);
    start_thread(alloc, work, servers, *pc, ours, one);
    start_thread(alloc, work, servers, *other, theirs, two);
    go_on(work, thread);
    thread.phase = Phase::WaitPar(first, second);
    Committed::Done(Fresh::Threads(first, second))
}
