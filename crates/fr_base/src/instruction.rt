//! Instructions of compiled code.

use crate::boxed::BoxedList;
use crate::place::{Lval, Op};

/// The slots that a new thread captures, in order, each with whether its value is taken out; else it is copied.
pub type Captures = BoxedList<(u32, bool)>;

/// Where an instruction finds an operand: a constant, the constant unit, or the value on top of the temporary values.
#[derive(Clone, Copy, Debug, PartialEq, Eq)]
pub enum Operand {
    Const(i64),
    Unit,
    Pop,
}

/// An instruction: one step of a thread. A new thread's code stands at the place that the instruction names.
#[derive(Debug, Drop)]
pub enum Instr {
    /// A new slot with the operand.
    Let(Operand),
    /// The operand is written to the place, and what stood there is dropped.
    Assign(Lval, Operand),
    /// The value at the place, taken out or copied.
    Read(Lval, bool),
    /// A shared reference to the place.
    Borrow(Lval),
    /// A mutable reference to the place.
    BorrowMut(Lval),
    /// A new object.
    Box(Operand),
    /// The left operand and the right one; of two that are popped the right one is on top.
    Arith(Op, Operand, Operand),
    Print(Operand),
    /// The temporary value on top is dropped.
    Discard,
    /// The last slot is dropped.
    DropSlot,
    /// A new thread with these slots, whose code stands there.
    Spawn(Captures, u32),
    Join(Operand),
    /// A new mutex with that content.
    Mutex(Operand),
    /// One share more of the mutex at the place.
    Dup(Lval),
    /// The content is taken out of the mutex at the place, into a new slot.
    Lock(Lval),
    /// The last slot's value goes back into its mutex.
    Unlock,
    /// Two new threads, each with its slots and the place of its code.
    Par(Captures, u32, Captures, u32),
    /// Both threads of the pair have ended.
    ParEnd,
    /// The thread is over, with that result.
    End(Operand),
}
