//! Messages, and their kinds.

ghost use Rattle.std.specs.Prelude.{◌≡◌, ◌<◌};
ghost use Rattle.fr_base.specs.Kinds.{kind_number};
ghost use Rattle.server_msgs.specs.Messages.{kind_of};

use fr_base::{Kind, MutexNo, ObjNo, Released, ThreadNo};
use global_addr::Word;
use heap_partition::{Cell, Owned};
use thread_state::Parcel;

/// A message from one server to one server. A request names the server and the thread that ask, and an answer the thread that it
/// is for. (Requests for copies and for objects are in the manner of DRust, OSDI 2024; the messages are this project's.)
#[derive(Drop)]
pub enum Message {
    /// A reader asks the word's server for a copy of the object.
    Fetch(Word, ObjNo, u8, ThreadNo),
    /// The copy that was asked for under that word.
    Fetched(Word, Cell, ThreadNo),
    /// A writer asks the word's server for the object.
    Move(Word, ObjNo, u8, ThreadNo),
    /// The object that was asked for, with the word that it had.
    Moved(Word, Cell, ThreadNo),
    /// The object's pointer was given up for good.
    Drop(Word, ObjNo),
    /// A thread asks a mutex's home for the content.
    Lock(MutexNo, u8, ThreadNo),
    /// The content that was asked for.
    Granted(MutexNo, Owned, ThreadNo),
    /// The content goes back to the mutex's home.
    Unlock(MutexNo, Owned),
    /// A thread asks a mutex's home for one share more.
    Dup(MutexNo, u8, ThreadNo),
    /// The share that was asked for.
    Dupped(MutexNo, ThreadNo),
    /// A mutex value or a task was dropped.
    Release(Released),
    /// A new thread goes to its server.
    Start(Parcel),
    /// A thread, at that server, asks a task's home for the result of the task's thread: the thread, and who asks.
    Join(ThreadNo, u8, ThreadNo),
    /// The result that was asked for: the thread, its result, and who asked.
    Joined(ThreadNo, Owned, ThreadNo),
    /// A thread has ended with that result.
    Finished(ThreadNo, Owned),
    /// A thread goes to another server.
    Migrate(Parcel),
}

impl Message {
    /// The number of the message's kind: below 16. No memory.
    pub fn kind(&self) -> usize
        ensures number { result ≡ kind_number (kind_of self.now) }
        ensures few { result < 16 }
    {
        match self {
            Message::Fetch(..) => Kind::Fetch.number(),
            Message::Fetched(..) => Kind::Fetched.number(),
            Message::Move(..) => Kind::Move.number(),
            Message::Moved(..) => Kind::Moved.number(),
            Message::Drop(..) => Kind::Drop.number(),
            Message::Lock(..) => Kind::Lock.number(),
            Message::Granted(..) => Kind::Granted.number(),
            Message::Unlock(..) => Kind::Unlock.number(),
            Message::Dup(..) => Kind::Dup.number(),
            Message::Dupped(..) => Kind::Dupped.number(),
            Message::Release(_) => Kind::Release.number(),
            Message::Start(_) => Kind::Start.number(),
            Message::Join(..) => Kind::Join.number(),
            Message::Joined(..) => Kind::Joined.number(),
            Message::Finished(..) => Kind::Finished.number(),
            Message::Migrate(_) => Kind::Migrate.number(),
        }
    }
}
