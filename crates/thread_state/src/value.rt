//! Values of slots and of temporaries.

use fr_base::MutexNo;
use heap_partition::Owned;
use mut_borrow::{MutRef, SharedRef};

/// What a slot or a temporary of a thread holds. `Gone` is what a move out leaves, `Held` stands in the hidden slot of a
/// lock; a slot's number counts the thread's slots from 0.
#[derive(Clone, Copy, Debug, PartialEq, Eq)]
pub enum Value {
    Gone,
    Own(Owned),
    SharedSlot(u32),
    MutSlot(u32),
    Shared(SharedRef),
    Mut(MutRef),
    Held(MutexNo),
}
