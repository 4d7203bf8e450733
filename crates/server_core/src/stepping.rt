//! Steps: a place is made ready, and the plain step follows where it is.

ghost use Rattle.std.specs.Prelude.{◌≡◌, ◌+◌, ◌-◌, ◌*◌, ◌^◌, ◌<◌, ◌≤◌, ℕ, Some, IsSome, IfSome, length, slice_get, option_map};
ghost use Rattle.rank_map.specs.Places.{item_at};
ghost use Rattle.server_model.specs.Events.{committed as finished, prepared as followed, left_by, step, stepped as left_stepped};
ghost use Rattle.server_model.specs.Prepare.{access_of};
ghost use Rattle.server_model.specs.Work.{thread_in};
ghost use Rattle.server_steps.specs.Committeds.{committed};
ghost use Rattle.server_parts.specs.Hands.{hand};
ghost use Rattle.server_ready.specs.Prepareds.{prepared};
ghost use Rattle.server_core.specs.Rooms.{HasRoomOf};
ghost use Rattle.server_parts.specs.Sites.{site};
ghost use Rattle.server_parts.specs.Spares.{HasSpares};
ghost use Rattle.server_deliveries.specs.Standing.{standing};
ghost use Rattle.server_ready.specs.Stars.{stars};
ghost use Rattle.server_core.specs.Steps.{ThreadLeft, step_there, stepped};
ghost use Rattle.server_parts.specs.Threads.{states};

use fr_base::{Code, Fresh, Instr, ThreadNo};
use server_parts::{Spares, Threads, Work, access_of};
use server_ready::{Prepared, prepare};
use server_steps::{Committed, commit, settle};
use std::alloc::Global;
use thread_state::{Phase, Thread};

// The step is done, and its walk ends; or the thread waits, and its hops and labels count later.
#[tactic(auto, using(server_deliveries::proofs::DeliverLemmas::made_of))]
fn finish(work: &mut Work, thread: &mut Thread, done: Committed) -> Option<Fresh>
    requires result { IsSome (finished (committed done (hand work.old thread.old))) }
    ensures state { finished (committed done (hand work.old thread.old)) ≡ Some (stepped result work.new thread.new) }
{
    match done {
        Committed::Done(names) => {
            settle(work, thread);
            Some(names)
        }
        Committed::Waits => {
            work.put_off();
            None
        }
    }
}

// The plain step follows where its place is ready.
#[tactic(auto, using(crate::proofs::StepLemmas::plain_there))]
fn follow(
    servers: u8,
    instr: &Instr,
    ready: Prepared,
    work: &mut Work,
    thread: &mut Thread,
    spares: &mut Spares,
) -> Option<Fresh>
    requires result { IsSome (followed servers instr.now (prepared ready (hand work.old thread.old))) }
    requires servers { 0 < servers }
    requires started { work.old.state.rest.started < 2 ^ 32 - 2 }
    requires pc { thread.old.state.pc < 2 ^ 32 - 1 }
    requires made { thread.old.state.made < 2 ^ 64 - 1 }
    requires room { 7 ≤ work.old.room }
    requires thread_room { 2 ≤ thread.old.room }
    requires slots { HasSpares spares.old instr.now }
    ensures state { followed servers instr.now (prepared ready (hand work.old thread.old)) ≡ Some (stepped result work.new thread.new) }
{
    match ready {
        Prepared::Ready(at) => {
            let done = commit(servers, instr, &at, work, thread, spares);
            finish(work, thread, done)
        }
        Prepared::Requested => {
            work.put_off();
            None
        }
    }
}

// A thread that is over keeps no memory for its lists, if nothing stands in them.
fn close(thread: &mut Thread, alloc: Global)
    ensures { thread.new.state ≡ thread.old.state }
{
    let is_empty = thread.slots.is_empty() && thread.temps.is_empty() && thread.walk.is_empty();
    if is_empty && matches!(&thread.phase, Phase::Over) {
        thread.slots = Vec::new(alloc);
        thread.temps = Vec::new(alloc);
        thread.walk = Vec::new(alloc);
    }
}

// A thread goes on with the plain step of its instruction as far as it can here.
fn step(
    servers: u8,
    instr: &Instr,
    work: &mut Work,
    thread: &mut Thread,
    spares: &mut Spares,
) -> Option<Fresh>
    requires result { IsSome (step servers instr.now (hand work.old thread.old)) }
    requires servers { 0 < servers }
    requires started { work.old.state.rest.started + 16 < 2 ^ 32 }
    requires counts { ThreadLeft thread.old.state }
    requires room { 5 * stars (access_of instr.now thread.old.state) thread.old.state + 7 ≤ work.old.room }
    requires thread_room { stars (access_of instr.now thread.old.state) thread.old.state + 2 ≤ thread.old.room }
    requires slots { HasSpares spares.old instr.now }
    ensures state { step servers instr.now (hand work.old thread.old) ≡ Some (stepped result work.new thread.new) }
{
    let access = access_of(instr, thread);
    let ready = prepare(work, thread, access);
    let names = follow(servers, instr, ready, work, thread, spares);
    close(thread, spares.alloc);
    names
}

/// The thread of that number steps, and stands where it stood. It stands here.
pub(crate) fn step_at(
    work: &mut Work,
    threads: &mut Threads,
    spares: &mut Spares,
    code: &Code,
    servers: u8,
    thread: ThreadNo,
) -> Option<Fresh>
    requires result { IsSome (step_there code.now.items servers thread (site work.old threads.old)) }
    requires servers { 0 < servers }
    requires started { work.old.state.rest.started + 16 < 2 ^ 32 }
    requires counts { IfSome (thread_in (states threads.old) thread) ThreadLeft }
    requires room { HasRoomOf code.now.items work.old.room spares.old (item_at threads.old thread) }
    ensures state { (n : ℕ) → option_map (left_stepped (standing work.old threads.old n)) (step_there code.now.items servers thread (site work.old threads.old)) ≡ Some (left_by n (Some thread) result (site work.new threads.new)) }
{
    let mut here = threads.take(thread);
    let Some(instr) = code.at(here.thread.pc) else {
        unreachable!();
    };
    let names = step(servers, instr, work, &mut here.thread, spares);
    threads.insert(here);
    names
}
