//! What an instruction needs of a place before it can be done.

use crate::spot::Spot;
use fr_base::Lval;

/// What an instruction needs of a place: all its pointers read; those of a shared borrow, up to the pointer that is borrowed from; all
/// followed for a write; those of a mutable borrow, with the object here; or of a mutable reference that ends, its own word and its
/// holder's place.
#[derive(Clone, Copy)]
pub enum Access {
    ReadTo(Lval),
    ReadPointer(Lval),
    WriteTo(Lval),
    LendTo(Lval),
    EndRef(Spot),
}
