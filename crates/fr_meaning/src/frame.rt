//! Where a thread stands in its forms.

use fr_base::{Lval, Op};
use fr_plain::Value;

/// How many frames a thread that goes on has room for: no term that it comes to is deeper. A source is at most 64 terms deep, and a term
/// at most twice as deep as its source, since a lock's body that declares variables outside of its blocks stands in a block of its own.
pub const FRAMES: usize = 128;

/// A term that is done: a constant, or the value that a step left.
#[derive(Clone, Copy)]
pub enum Done {
    Unit,
    Number(i64),
    Temp(Value),
}

/// A term that waits for a part of it.
#[derive(Clone, Copy)]
pub enum Frame {
    Box,
    Let,
    Print,
    Join,
    Assign(Lval),
    Mutex,
    /// A lock whose body is in progress.
    Locked,
    /// The left operand is in progress; the form of the right one, which comes after it.
    Left { op: Op, right: usize },
    /// The right operand is in progress, and the left one is done.
    Right { op: Op, left: Done },
    /// How many slots the block has still to drop, its form, and the item after the one in progress.
    Block { left: u32, node: usize, next: usize },
}

/// The innermost term: it is done, or it reads a place, with or without taking the value out of it, or makes a
/// reference to one, or starts the thread of a form, or counts a share more of the mutex at a place, or locks the mutex
/// at a place for a form, or starts the two threads of a form, or waits for two that it has started.
#[derive(Clone, Copy)]
pub enum Focus {
    Over(Done),
    Read(Lval, bool),
    Borrow(Lval, bool),
    Spawn(usize),
    Dup(Lval),
    Lock(Lval, usize),
    Par(usize),
    ParEnd,
}

/// What entering a term comes to: it is done, or it waits at its innermost part.
#[derive(Clone, Copy)]
pub enum Entered {
    Ended(Done),
    Waits(Focus),
}
