//! Copies that go, and threads that leave for another server.

ghost use Rattle.std.specs.Prelude.{◌≡◌, ◌+◌, ◌<◌, ◌≤◌, Some, IsSome};
ghost use Rattle.server_model.specs.Events.{evict_copy};
ghost use Rattle.server_model.specs.Moving.{migrate};
ghost use Rattle.server_parts.specs.Sites.{site};

use fr_base::ThreadNo;
use global_addr::Word;
use journal::Act;
use migration::pack_thread;
use server_msgs::Message;
use server_parts::{Threads, Work};

/// The copy goes; nobody uses it.
pub(crate) fn evict_copy(work: &mut Work, word: Word)
    requires result { IsSome (evict_copy word work.old.state) }
    requires room { 1 ≤ work.old.room }
    ensures state { evict_copy word work.old.state ≡ Some work.new.state }
    ensures spare { work.old.room ≤ work.new.room + 1 }
    ensures copies { work.new.copies ≡ work.old.copies }
{
    work.cache.evict(word);
    work.note(Act::Evict(word));
}

/// The thread leaves for that server; it is noted that it has moved since its last step.
pub(crate) fn migrate(work: &mut Work, threads: &mut Threads, thread: ThreadNo, target: u8)
    requires result { IsSome (migrate thread target (site work.old threads.old)) }
    requires room { 2 ≤ work.old.room }
    ensures state { migrate thread target (site work.old threads.old) ≡ Some (site work.new threads.new) }
    ensures spare { work.old.room ≤ work.new.room + 2 }
{
    let mut leaving = threads.take(thread);
    leaving.thread.moved_since_step = true;
    let parcel = pack_thread(leaving, &mut work.cache);
    work.note(Act::Depart(thread, target));
    work.send(target, Message::Migrate(parcel));
}
