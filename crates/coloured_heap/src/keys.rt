//! What the tables find objects, mutexes and wishes by.

ghost use Rattle.std.specs.Prelude.{◌≡◌};
ghost use Rattle.coloured_heap.specs.Tables.{mutex_key, object_key};

use fr_base::{MutexNo, ObjNo, ThreadNo};
use global_addr::Word;

/// An object, by the number of its thread and its count.
#[derive(Clone, Copy, Debug, PartialEq, Eq, Hash)]
pub(crate) struct ObjectKey {
    pub(crate) thread: u64,
    pub(crate) count: u64,
}

/// A mutex, by its home and its count.
#[derive(Clone, Copy, Debug, PartialEq, Eq, Hash)]
pub(crate) struct MutexKey {
    pub(crate) home: u8,
    pub(crate) count: u32,
}

/// What was asked for and isn't answered: a copy of an object or the object itself under a word, by a server; a mutex's content or
/// a share of it, by a thread at a server; the result of a thread, by another thread at a server.
#[derive(Clone, Copy, Debug, PartialEq, Eq, Hash)]
pub(crate) enum Wish {
    Copy(ObjectKey, Word, u8),
    Object(ObjectKey, Word, u8),
    Content(MutexKey, u64, u8),
    Share(MutexKey, u64, u8),
    Result(u64, u64, u8),
}

/// What an object is found by.
pub(crate) fn object_key(object: &ObjNo) -> ObjectKey
    ensures { result ≡ object_key object.now }
{
    ObjectKey {
        thread: object.thread.number(),
        count: object.count,
    }
}

/// What a mutex is found by.
pub(crate) fn mutex_key(mutex: &MutexNo) -> MutexKey
    ensures { result ≡ mutex_key mutex.now }
{
    MutexKey {
        home: mutex.home,
        count: mutex.count,
    }
}
