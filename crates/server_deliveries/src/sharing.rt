//! Messages about mutexes: the home grants the content in the order of asking, and drops it once no share is left and the content is in.

ghost use Rattle.std.specs.Prelude.{◌≡◌, ◌+◌, ◌<◌, ◌≤◌, Some, IsSome};
ghost use Rattle.server_model.specs.Sharing.{given, grant, deliver_lock, deliver_granted, deliver_unlock, deliver_dup, deliver_dupped, give_up_left, release_mutex};
ghost use Rattle.server_parts.specs.Hands.{hand};

use fr_base::{MutexNo, ThreadNo};
use heap_partition::Owned;
use journal::Act;
use mutex_home::{Asked, Back};
use server_msgs::Message;
use server_parts::Work;
use thread_state::{Phase, Thread};

/// A thread without a gift has what it waited for as its gift, until its step takes it.
pub(crate) fn give(work: &Work, thread: &mut Thread, value: Owned)
    requires result { IsSome (given value thread.old.state.gift (hand work.now thread.old)) }
    ensures state { given value thread.old.state.gift (hand work.now thread.old) ≡ Some (hand work.now thread.new) }
    ensures number { thread.new.state.number ≡ thread.old.state.number }
    ensures room { thread.new.room ≡ thread.old.room }
{
    let _work = work;
    thread.gift = Some(value);
    thread.phase = Phase::Got;
}

// The content goes to that thread at that server.
fn grant(work: &mut Work, mutex: MutexNo, server: u8, thread: ThreadNo, content: Owned)
    requires room { 2 ≤ work.old.room }
    ensures state { work.new.state ≡ grant mutex server thread content work.old.state }
    ensures spare { work.old.room ≤ work.new.room + 2 }
    ensures copies { work.new.copies ≡ work.old.copies }
{
    work.note(Act::Grant(mutex, thread, server));
    work.send(server, Message::Granted(mutex, content, thread));
}

/// The home grants the content, or the thread waits in the queue.
#[tactic(auto, using(crate::proofs::DeliverLemmas::made_of, crate::proofs::DeliverLemmas::asked_there))]
pub(crate) fn deliver_lock(work: &mut Work, mutex: MutexNo, server: u8, thread: ThreadNo)
    requires result { IsSome (deliver_lock mutex server thread work.old.state) }
    requires room { 3 ≤ work.old.room }
    ensures state { deliver_lock mutex server thread work.old.state ≡ Some work.new.state }
    ensures spare { work.old.room ≤ work.new.room + 3 }
    ensures copies { work.new.copies ≡ work.old.copies }
{
    let asked = work.mutexes.ask(mutex, server, thread);
    work.room -= 1;
    match asked {
        Asked::Queued => {}
        Asked::Granted(content) => grant(work, mutex, server, thread, content),
    }
}

/// The content is the gift of the thread.
pub(crate) fn deliver_granted(work: &Work, thread: &mut Thread, mutex: MutexNo, content: Owned)
    requires result { IsSome (deliver_granted mutex content (hand work.now thread.old)) }
    ensures state { deliver_granted mutex content (hand work.now thread.old) ≡ Some (hand work.now thread.new) }
    ensures number { thread.new.state.number ≡ thread.old.state.number }
    ensures room { thread.new.room ≡ thread.old.room }
{
    let _mutex = mutex;
    give(work, thread, content);
}

/// The content goes on to the first that waits; with no share left it is dropped.
#[tactic(auto, using(crate::proofs::DeliverLemmas::made_of))]
pub(crate) fn deliver_unlock(work: &mut Work, mutex: MutexNo, content: Owned)
    requires result { IsSome (deliver_unlock mutex content work.old.state) }
    requires room { 2 ≤ work.old.room }
    ensures state { deliver_unlock mutex content work.old.state ≡ Some work.new.state }
    ensures spare { work.old.room ≤ work.new.room + 2 }
    ensures copies { work.new.copies ≡ work.old.copies }
{
    match work.mutexes.give_back(mutex, content) {
        Back::Next(server, thread, content) => grant(work, mutex, server, thread, content),
        Back::Ended(content) => work.give_up(content),
        Back::Kept => {}
    }
}

/// The home counts one share more, and answers.
#[tactic(auto, using(crate::proofs::DeliverLemmas::made_of))]
pub(crate) fn deliver_dup(work: &mut Work, mutex: MutexNo, server: u8, thread: ThreadNo)
    requires result { IsSome (deliver_dup mutex server thread work.old.state) }
    requires room { 2 ≤ work.old.room }
    ensures state { deliver_dup mutex server thread work.old.state ≡ Some work.new.state }
    ensures spare { work.old.room ≤ work.new.room + 2 }
    ensures copies { work.new.copies ≡ work.old.copies }
{
    work.mutexes.more(mutex);
    work.note(Act::Dupped(mutex, thread, server));
    work.send(server, Message::Dupped(mutex, thread));
}

/// The share is the gift of the thread.
pub(crate) fn deliver_dupped(work: &Work, thread: &mut Thread, mutex: MutexNo)
    requires result { IsSome (deliver_dupped mutex (hand work.now thread.old)) }
    ensures state { deliver_dupped mutex (hand work.now thread.old) ≡ Some (hand work.now thread.new) }
    ensures number { thread.new.state.number ≡ thread.old.state.number }
    ensures room { thread.new.room ≡ thread.old.room }
{
    give(work, thread, Owned::Mutex(mutex));
}

/// What is left over is dropped.
pub(crate) fn give_up_left(work: &mut Work, left: Option<Owned>)
    requires room { 2 ≤ work.old.room }
    ensures state { work.new.state ≡ give_up_left left work.old.state }
    ensures spare { work.old.room ≤ work.new.room + 2 }
    ensures copies { work.new.copies ≡ work.old.copies }
{
    match left {
        None => {}
        Some(value) => work.give_up(value),
    }
}

/// A value of the mutex was dropped; the last share drops the content that is in.
#[tactic(auto, using(crate::proofs::DeliverLemmas::made_of))]
pub(crate) fn release_mutex(work: &mut Work, mutex: MutexNo)
    requires result { IsSome (release_mutex mutex work.old.state) }
    requires room { 2 ≤ work.old.room }
    ensures state { release_mutex mutex work.old.state ≡ Some work.new.state }
    ensures spare { work.old.room ≤ work.new.room + 2 }
    ensures copies { work.new.copies ≡ work.old.copies }
{
    let left = work.mutexes.less(mutex);
    give_up_left(work, left);
}
