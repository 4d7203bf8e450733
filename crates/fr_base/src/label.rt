//! Values without servers, words or copies, and labels of plain steps.

use crate::list::List;
use crate::name::{MutexNo, ObjNo, ThreadNo};

/// A value that can be owned, as labels and the plain machine show it.
/// `Nothing` is what a move out leaves in a cell.
#[derive(Clone, Copy, Debug, PartialEq, Eq)]
pub enum Plain {
    Nothing,
    Unit,
    Int(i64),
    Box(ObjNo),
    Mutex(MutexNo),
    Task(ThreadNo),
}

/// What a plain step did that can be seen: objects made, loaded, stored and dropped, numbers printed, mutexes locked
/// and unlocked, threads started and ended.
#[derive(Clone, Copy, Debug, PartialEq, Eq)]
pub enum Label {
    Make(ObjNo, Plain),
    Load(ObjNo, Plain),
    Store(ObjNo, Plain),
    Drop(ObjNo),
    Print(i64),
    Lock(MutexNo),
    Unlock(MutexNo),
    Start(ThreadNo),
    End(ThreadNo),
}

/// The labels of one step, in the order in which the step gave them.
pub type Labels = List<Label>;
