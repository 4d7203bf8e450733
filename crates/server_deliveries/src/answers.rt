//! Answers to threads that are here: a thread is taken out, has its answer, and stands again where it stood.

ghost use Rattle.std.specs.Prelude.{◌≡◌, ◌+◌, ◌^◌, ◌<◌, ◌≤◌, true, Some, IsSome};
ghost use Rattle.rank_map.specs.Places.{item_at};
ghost use Rattle.server_model.specs.Work.{at_thread, thread_in};
ghost use Rattle.server_model.specs.Objects.{deliver_fetched, deliver_moved};
ghost use Rattle.server_model.specs.Sharing.{deliver_granted, deliver_dupped};
ghost use Rattle.server_model.specs.Joining.{deliver_joined, pair_over};
ghost use Rattle.server_parts.specs.Sites.{site, has_copy_room, HasItems};
ghost use Rattle.server_deliveries.specs.Taking.{slots_in, passed_in};
ghost use Rattle.server_parts.specs.Threads.{states};

use crate::joining::{deliver_joined, pair_over};
use crate::objects::deliver_fetched;
use crate::pulling::deliver_moved;
use crate::sharing::{deliver_dupped, deliver_granted};
use fr_base::{Code, MutexNo, ThreadNo};
use global_addr::Word;
use heap_partition::{Cell, Owned};
use server_parts::{Threads, Work};

/// The content of a mutex is the gift of that thread.
#[tactic(auto, using(crate::proofs::DeliverLemmas::at_here, crate::proofs::DeliverLemmas::at_can))]
pub(crate) fn granted_at(
    work: &Work,
    threads: &mut Threads,
    mutex: MutexNo,
    content: Owned,
    thread: ThreadNo,
)
    requires result { IsSome (at_thread thread (deliver_granted mutex content) (site work.now threads.old)) }
    ensures state { at_thread thread (deliver_granted mutex content) (site work.now threads.old) ≡ Some (site work.now threads.new) }
{
    let mut here = threads.take(thread);
    deliver_granted(work, &mut here.thread, mutex, content);
    threads.insert(here);
}

/// A share of a mutex is the gift of that thread.
#[tactic(auto, using(crate::proofs::DeliverLemmas::at_here, crate::proofs::DeliverLemmas::at_can))]
pub(crate) fn dupped_at(work: &Work, threads: &mut Threads, mutex: MutexNo, thread: ThreadNo)
    requires result { IsSome (at_thread thread (deliver_dupped mutex) (site work.now threads.old)) }
    ensures state { at_thread thread (deliver_dupped mutex) (site work.now threads.old) ≡ Some (site work.now threads.new) }
{
    let mut here = threads.take(thread);
    deliver_dupped(work, &mut here.thread, mutex);
    threads.insert(here);
}

/// The result of another thread is the gift of that thread.
#[tactic(auto, using(crate::proofs::DeliverLemmas::at_here, crate::proofs::DeliverLemmas::at_can))]
pub(crate) fn joined_at(
    work: &Work,
    threads: &mut Threads,
    other: ThreadNo,
    value: Owned,
    thread: ThreadNo,
)
    requires result { IsSome (at_thread thread (deliver_joined other value) (site work.now threads.old)) }
    ensures state { at_thread thread (deliver_joined other value) (site work.now threads.old) ≡ Some (site work.now threads.new) }
{
    let mut here = threads.take(thread);
    deliver_joined(work, &mut here.thread, other, value);
    threads.insert(here);
}

/// The parent of a pair with the other thread goes on.
#[tactic(auto, using(crate::proofs::DeliverLemmas::at_here, crate::proofs::DeliverLemmas::at_can))]
pub(crate) fn pair_over_at(work: &Work, threads: &mut Threads, other: ThreadNo, thread: ThreadNo)
    requires result { IsSome (at_thread thread (pair_over other) (site work.now threads.old)) }
    ensures state { at_thread thread (pair_over other) (site work.now threads.old) ≡ Some (site work.now threads.new) }
{
    let mut here = threads.take(thread);
    pair_over(work, &mut here.thread, other);
    threads.insert(here);
}

/// A copy comes to the cache, and that thread uses it.
#[tactic(auto, using(crate::proofs::DeliverLemmas::at_here, crate::proofs::DeliverLemmas::at_can))]
pub(crate) fn fetched_at(
    work: &mut Work,
    threads: &mut Threads,
    word: Word,
    cell: Cell,
    thread: ThreadNo,
)
    requires result { IsSome (at_thread thread (deliver_fetched word cell) (site work.old threads.old)) }
    requires place { has_copy_room work.old word ≡ true }
    requires room { 1 ≤ work.old.room }
    requires thread_room { HasItems 1 (item_at threads.old thread) }
    ensures state { at_thread thread (deliver_fetched word cell) (site work.old threads.old) ≡ Some (site work.new threads.new) }
    ensures spare { work.old.room ≤ work.new.room + 1 }
{
    let _inside: Option<Owned> = None;
    let mut here = threads.take(thread);
    deliver_fetched(work, &mut here.thread, word, cell);
    threads.insert(here);
}

/// An object comes here under a new word, to that thread. The thread has fewer than 2^32 slots, and passed fewer than 255 hops.
#[tactic(auto, using(crate::proofs::DeliverLemmas::at_here, crate::proofs::DeliverLemmas::at_can))]
pub(crate) fn moved_at(
    work: &mut Work,
    threads: &mut Threads,
    code: &Code,
    old: Word,
    cell: Cell,
    thread: ThreadNo,
)
    requires result { IsSome (at_thread thread (deliver_moved code.now.items old cell) (site work.old threads.old)) }
    requires slots { slots_in (thread_in (states threads.old) thread) < 2 ^ 32 }
    requires few { passed_in (thread_in (states threads.old) thread) < 255 }
    requires room { 2 ≤ work.old.room }
    ensures state { at_thread thread (deliver_moved code.now.items old cell) (site work.old threads.old) ≡ Some (site work.new threads.new) }
    ensures spare { work.old.room ≤ work.new.room + 2 }
{
    let _inside: Option<Owned> = None;
    let mut here = threads.take(thread);
    deliver_moved(work, &mut here.thread, code, old, cell);
    threads.insert(here);
}
