//! Values of the plain machine.

use fr_base::{MutexNo, ObjNo, Plain};

/// A value of a slot or a temporary value: an owned value (`Plain::Nothing` where it was moved out), or a reference to
/// a slot of the same thread or to an object, or the mark of a lock: in the hidden slot below the content of the mutex that is held.
#[derive(Clone, Copy, Debug, PartialEq, Eq)]
pub enum Value {
    Own(Plain),
    ToSlot(u32),
    ToObject(ObjNo),
    Held(MutexNo),
}
