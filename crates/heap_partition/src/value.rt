//! Owned values as servers keep them.

ghost use Rattle.std.specs.Prelude.{◌≡◌};
ghost use Rattle.heap_partition.specs.Plain.{plain_of};

use fr_base::{MutexNo, ObjNo, Plain, ThreadNo};
use global_addr::Word;

/// A box as its owner holds it: the word that leads to the object, and the object's name. The name travels beside the
/// word for the labels, and is never used to find a cell.
#[derive(Clone, Copy, Debug, PartialEq, Eq)]
pub struct BoxPtr {
    pub word: Word,
    pub object: ObjNo,
}

/// A value that can be owned; it holds at most one pointer. `Nothing` is what a move out leaves.
#[derive(Clone, Copy, Debug, PartialEq, Eq)]
pub enum Owned {
    Nothing,
    Unit,
    Int(i64),
    Box(BoxPtr),
    Mutex(MutexNo),
    Task(ThreadNo),
}

impl Owned {
    /// The value as labels and the plain machine show it: without the word. No memory.
    pub fn plain(self) -> Plain
        ensures { result ≡ plain_of self }
    {
        match self {
            Owned::Nothing => Plain::Nothing,
            Owned::Unit => Plain::Unit,
            Owned::Int(number) => Plain::Int(number),
            Owned::Box(pointer) => Plain::Box(pointer.object),
            Owned::Mutex(mutex) => Plain::Mutex(mutex),
            Owned::Task(thread) => Plain::Task(thread),
        }
    }
}

/// What lies at an address: an object and its value.
#[derive(Clone, Copy, Debug, PartialEq, Eq)]
pub struct Cell {
    pub object: ObjNo,
    pub value: Owned,
}
