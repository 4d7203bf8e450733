//! What an event of a server does to the shared memory, act by act.

use fr_base::{List, MutexNo, ObjNo, Released, ThreadNo};
use global_addr::Word;

/// One thing that an event did to the shared memory. 'Here' is the server of the event. An object is live from its `Make` until
/// its block is freed. Each act names what it does by objects, words, servers, threads and mutexes; the values are in the labels.
/// (The idea, of objects that move and are copied under coloured pointers, is that of DRust, OSDI 2024; the acts are this
/// project's.)
#[derive(Clone, Copy, Debug, PartialEq, Eq)]
pub enum Act {
    /// A new object here, under a word that was never issued.
    Make(ObjNo, Word),
    /// The object lies here and was reached by its word.
    Local(ObjNo, Word),
    /// The copy that is cached here under the object's word was used.
    Hit(ObjNo, Word),
    /// A copy of an object that is neither here nor cached here was asked for.
    Ask(ObjNo, Word),
    /// A copy of an object that lies here was sent to that server.
    Serve(ObjNo, Word, u8),
    /// The copy that was served came to the cache here.
    Fill(ObjNo, Word),
    /// An object that isn't here was asked to come.
    Pull(ObjNo, Word),
    /// An object that lay here left for that server, and its address was freed.
    Give(ObjNo, Word, u8),
    /// An object came here: the word that it had, and its new word.
    Take(ObjNo, Word, Word),
    /// An object's pointer got the next colour: the word that it had, and its new word.
    Tint(ObjNo, Word, Word),
    /// An object that lies here at the last colour got a new address, and the old one was retired: its old and its new word.
    Renew(ObjNo, Word, Word),
    /// The object's pointer was given up for good.
    Condemn(ObjNo, Word),
    /// The block of an object that lay here and was condemned was freed.
    Free(ObjNo, Word),
    /// The copy under that word left the cache here.
    Evict(Word),
    /// A thread here asked for the content of a mutex.
    AskLock(MutexNo),
    /// The content of a mutex whose home is here was sent to that thread at that server.
    Grant(MutexNo, ThreadNo, u8),
    /// A thread here gave the content of a mutex back.
    GiveBack(MutexNo),
    /// A thread here asked for one share more of a mutex.
    AskDup(MutexNo),
    /// A share of a mutex whose home is here was sent to that thread at that server.
    Dupped(MutexNo, ThreadNo, u8),
    /// A mutex value or a task was dropped here.
    LetGo(Released),
    /// A thread was started, to run at that server.
    Start(ThreadNo, u8),
    /// A thread here asked for the result of that thread.
    AskJoin(ThreadNo),
    /// The result of a thread whose home is here was sent: the thread, who asked, and the server that it is at.
    Answer(ThreadNo, ThreadNo, u8),
    /// A thread other than main ended here.
    Finish(ThreadNo),
    /// A thread left for that server.
    Depart(ThreadNo, u8),
}

/// The acts of one event, in the order in which they were done.
pub type Acts = List<Act>;
