//! What a message does at the server that it goes to.

ghost use Rattle.std.specs.Prelude.{◌≡◌, ◌+◌, ◌≤◌, Some, IsSome};
ghost use Rattle.server_model.specs.Events.{release, deliver_message};
ghost use Rattle.server_parts.specs.Sites.{site};
ghost use Rattle.server_deliveries.specs.Taking.{CanTake};

use crate::answers::{dupped_at, fetched_at, granted_at, joined_at, moved_at};
use crate::joining::{arrive, deliver_finished, deliver_join, release_task};
use crate::objects::{deliver_drop, deliver_fetch, deliver_move};
use crate::sharing::{deliver_dup, deliver_lock, deliver_unlock, release_mutex};
use fr_base::{Code, Released};
use heap_partition::{Cell, Owned};
use server_msgs::Message;
use server_parts::{Threads, Work};

// A mutex value or a task was dropped.
fn release(work: &mut Work, released: Released)
    requires result { IsSome (release released work.old.state) }
    requires room { 2 ≤ work.old.room }
    ensures state { release released work.old.state ≡ Some work.new.state }
    ensures spare { work.old.room ≤ work.new.room + 2 }
    ensures copies { work.new.copies ≡ work.old.copies }
{
    match released {
        Released::Mutex(mutex) => release_mutex(work, mutex),
        Released::Task(thread) => release_task(work, thread),
    }
}

/// What a message does at the server that it goes to.
#[tactic(auto, using(crate::proofs::DeliverLemmas::made_of))]
pub(crate) fn deliver_message(work: &mut Work, threads: &mut Threads, code: &Code, message: Message)
    requires result { IsSome (deliver_message code.now.items message (site work.old threads.old)) }
    requires ready { CanTake message work.old threads.old }
    requires room { 3 ≤ work.old.room }
    ensures state { deliver_message code.now.items message (site work.old threads.old) ≡ Some (site work.new threads.new) }
    ensures spare { work.old.room ≤ work.new.room + 3 }
{
    let _inside: Option<(Cell, Owned)> = None;
    match message {
        Message::Fetch(word, object, server, by) => deliver_fetch(work, word, object, server, by),
        Message::Fetched(word, cell, by) => fetched_at(work, threads, word, cell, by),
        Message::Move(word, object, server, by) => deliver_move(work, word, object, server, by),
        Message::Moved(word, cell, by) => moved_at(work, threads, code, word, cell, by),
        Message::Drop(word, object) => deliver_drop(work, word, object),
        Message::Lock(mutex, server, by) => deliver_lock(work, mutex, server, by),
        Message::Granted(mutex, content, by) => granted_at(work, threads, mutex, content, by),
        Message::Unlock(mutex, content) => deliver_unlock(work, mutex, content),
        Message::Dup(mutex, server, by) => deliver_dup(work, mutex, server, by),
        Message::Dupped(mutex, by) => dupped_at(work, threads, mutex, by),
        Message::Release(released) => release(work, released),
        Message::Start(parcel) => arrive(work, threads, parcel),
        Message::Join(thread, server, by) => deliver_join(work, thread, server, by),
        Message::Joined(thread, value, by) => joined_at(work, threads, thread, value, by),
        Message::Finished(thread, value) => deliver_finished(work, threads, thread, value),
        Message::Migrate(parcel) => arrive(work, threads, parcel),
    }
}
