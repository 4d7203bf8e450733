//! Messages about threads: their results go to those that ask.

ghost use Rattle.std.specs.Prelude.{◌≡◌, ◌+◌, ◌<◌, ◌≤◌, true, None, Some, IsSome};
ghost use Rattle.server_model.specs.Joining.{answer, deliver_join, deliver_joined, release_task, got_par, pair_over, arrive, deliver_finished};
ghost use Rattle.server_model.specs.Work.{thread_in};
ghost use Rattle.rank_map.specs.Places.{has_place};
ghost use Rattle.server_parts.specs.Threads.{states};
ghost use Rattle.server_parts.specs.Sites.{site};
ghost use Rattle.server_parts.specs.Hands.{hand};

use crate::answers::pair_over_at;
use crate::sharing::{give, give_up_left};
use fr_base::ThreadNo;
use heap_partition::Owned;
use join_home::EndedAs;
use journal::Act;
use migration::unpack;
use server_msgs::Message;
use server_parts::{Threads, Work};
use thread_state::{Parcel, Phase, Thread};

// The result of a thread goes to that thread at that server.
pub(crate) fn answer(work: &mut Work, thread: ThreadNo, server: u8, by: ThreadNo, value: Owned)
    requires room { 2 ≤ work.old.room }
    ensures state { work.new.state ≡ answer thread server by value work.old.state }
    ensures spare { work.old.room ≤ work.new.room + 2 }
    ensures copies { work.new.copies ≡ work.old.copies }
{
    work.note(Act::Answer(thread, by, server));
    work.send(server, Message::Joined(thread, value, by));
}

/// The home answers where the thread has ended, and else notes who asked.
#[tactic(auto, using(crate::proofs::DeliverLemmas::made_of))]
pub(crate) fn deliver_join(work: &mut Work, thread: ThreadNo, server: u8, by: ThreadNo)
    requires result { IsSome (deliver_join thread server by work.old.state) }
    requires room { 2 ≤ work.old.room }
    ensures state { deliver_join thread server by work.old.state ≡ Some work.new.state }
    ensures spare { work.old.room ≤ work.new.room + 2 }
    ensures copies { work.new.copies ≡ work.old.copies }
{
    match work.tasks.ask(thread, server, by) {
        None => {}
        Some(value) => answer(work, thread, server, by, value),
    }
}

/// The result is the gift of the thread.
pub(crate) fn deliver_joined(work: &Work, thread: &mut Thread, other: ThreadNo, value: Owned)
    requires result { IsSome (deliver_joined other value (hand work.now thread.old)) }
    ensures state { deliver_joined other value (hand work.now thread.old) ≡ Some (hand work.now thread.new) }
    ensures number { thread.new.state.number ≡ thread.old.state.number }
    ensures room { thread.new.room ≡ thread.old.room }
{
    let _other = other;
    give(work, thread, value);
}

/// The task was dropped: a result that is kept is dropped, and else the thread is let go.
#[tactic(auto, using(crate::proofs::DeliverLemmas::made_of))]
pub(crate) fn release_task(work: &mut Work, thread: ThreadNo)
    requires result { IsSome (release_task thread work.old.state) }
    requires room { 2 ≤ work.old.room }
    ensures state { release_task thread work.old.state ≡ Some work.new.state }
    ensures spare { work.old.room ≤ work.new.room + 2 }
    ensures copies { work.new.copies ≡ work.old.copies }
{
    let left = work.tasks.let_go(thread);
    give_up_left(work, left);
}

// The phase of the parent of a pair with that thread once both have ended.
fn got_par(thread: &Thread, other: ThreadNo) -> Phase
    requires result { IsSome (got_par other thread.now.state.phase) }
    ensures { got_par other thread.now.state.phase ≡ Some result }
{
    let _other = other;
    match &thread.phase {
        Phase::WaitPar(first, second) => Phase::GotPar(*first, *second),
        _ => unreachable!(),
    }
}

/// The parent of a pair with that thread goes on.
#[tactic(auto, using(crate::proofs::DeliverLemmas::made_of))]
pub(crate) fn pair_over(work: &Work, thread: &mut Thread, other: ThreadNo)
    requires result { IsSome (pair_over other (hand work.now thread.old)) }
    ensures state { pair_over other (hand work.now thread.old) ≡ Some (hand work.now thread.new) }
    ensures number { thread.new.state.number ≡ thread.old.state.number }
    ensures room { thread.new.room ≡ thread.old.room }
{
    let _work = work;
    thread.phase = got_par(thread, other);
}

/// A thread stands here from now on: a new one, or one that was moved. There is room for it.
#[tactic(auto, using(crate::proofs::DeliverLemmas::arrives_new, crate::proofs::DeliverLemmas::arrives))]
pub(crate) fn arrive(work: &Work, threads: &mut Threads, parcel: Parcel)
    requires result { IsSome (arrive parcel (site work.now threads.old)) }
    requires room { has_place threads.old parcel.number ≡ true }
    ensures state { arrive parcel (site work.now threads.old) ≡ Some (site work.now threads.new) }
{
    let _work = work;
    threads.insert(unpack(parcel));
}

/// A thread has ended: its result goes to whoever asked, or is kept, or dropped; the second of a pair lets its parent go on.
pub(crate) fn deliver_finished(
    work: &mut Work,
    threads: &mut Threads,
    thread: ThreadNo,
    value: Owned,
)
    requires result { IsSome (deliver_finished thread value (site work.old threads.old)) }
    requires room { 2 ≤ work.old.room }
    ensures state { deliver_finished thread value (site work.old threads.old) ≡ Some (site work.new threads.new) }
    ensures spare { work.old.room ≤ work.new.room + 2 }
{
    match work.tasks.ended(thread, value) {
        EndedAs::Answer(server, by, value) => answer(work, thread, server, by, value),
        EndedAs::Both(parent) => pair_over_at(work, threads, thread, parent),
        EndedAs::LetGo(value) => work.give_up(value),
        EndedAs::Kept => {}
    }
}
