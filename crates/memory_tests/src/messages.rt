//! Kinds of messages.

use fr_base::{MutexNo, NoMemory, ObjNo, Released, ThreadNo};
use global_addr::Word;
use heap_partition::{Cell, Owned};
use server_msgs::Message;
use std::alloc::Global;
use std::test::Fail;
use thread_state::{BoxedThread, Parcel, Thread};

// A thread.
fn thread() -> ThreadNo {
    ThreadNo::new(0, 1)
}

// An object.
fn object() -> ObjNo {
    ObjNo {
        thread: thread(),
        count: 0,
    }
}

// A mutex.
fn mutex() -> MutexNo {
    MutexNo { home: 1, count: 1 }
}

// A cell.
fn cell() -> Cell {
    Cell {
        object: object(),
        value: Owned::Int(7),
    }
}

// The kind of the message.
fn kind(message: Message) -> usize {
    message.kind()
}

#[test]
fn objects_come_and_go(rt: HostRuntime) {
    let word = Word::pack(0, 1, 5);
    let kinds = [
        kind(Message::Fetch(word, object(), 0, thread())),
        kind(Message::Fetched(word, cell(), thread())),
        kind(Message::Move(word, object(), 0, thread())),
        kind(Message::Moved(word, cell(), thread())),
        kind(Message::Drop(word, object())),
    ];
    assert_eq!(rt; kinds, [0, 1, 2, 3, 4]);
}

#[test]
fn mutexes_and_threads_are_asked_for(rt: HostRuntime) {
    let kinds = [
        kind(Message::Lock(mutex(), 0, thread())),
        kind(Message::Granted(mutex(), Owned::Unit, thread())),
        kind(Message::Unlock(mutex(), Owned::Unit)),
        kind(Message::Dup(mutex(), 0, thread())),
        kind(Message::Dupped(mutex(), thread())),
        kind(Message::Release(Released::Mutex(mutex()))),
        kind(Message::Join(thread(), 0, thread())),
        kind(Message::Joined(thread(), Owned::Unit, thread())),
        kind(Message::Finished(thread(), Owned::Unit)),
    ];
    assert_eq!(rt; kinds, [5, 6, 7, 8, 9, 10, 12, 13, 14]);
}

// A thread in a parcel.
fn parcel(alloc: Global) -> Result<Parcel, NoMemory> {
    let thread = Thread::new(alloc, thread(), 3, Vec::new(alloc));
    Ok(Parcel::new(BoxedThread::new(alloc, thread)?))
}

#[test]
fn threads_travel(rt: HostRuntime) -> Result<(), Fail> {
    let start = kind(Message::Start(parcel(rt.alloc())?));
    let migrate = kind(Message::Migrate(parcel(rt.alloc())?));
    assert_eq!(rt; (start, migrate), (11, 15));
    Ok(())
}
