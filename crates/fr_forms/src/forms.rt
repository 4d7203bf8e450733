//! The forms of a program.

use fr_base::{Lval, Op};

/// A slot that a new thread captures, and whether the value is taken out of it.
#[derive(Clone, Copy)]
pub struct Captured {
    pub slot: u32,
    pub take: bool,
}

/// A new thread of a pair: the captured slots in order, its body, and how many slots the thread drops at its end: the
/// captured ones and the variables of the body.
#[derive(Drop)]
pub struct Body {
    pub captures: Vec<Captured>,
    pub term: u32,
    pub drops: u32,
}

/// A term with slots for names. There is one form for each node of the tree, under the node's number, and its parts
/// are numbers of forms that stand before it.
#[derive(Drop)]
pub enum Form {
    Number(i64),
    Unit,
    /// The place, and whether the value is taken out of it.
    Read(Lval, bool),
    /// The place that the reference leads to, and whether it is a mutable one.
    Borrow(Lval, bool),
    Box(u32),
    Let(u32),
    Print(u32),
    Join(u32),
    Assign(Lval, u32),
    /// The left operand and the right one.
    Arith(Op, u32, u32),
    /// The items in order, and how many of them are a `let`: so many slots are dropped at the block's end.
    Block(Vec<u32>, u32),
    /// The captured slots in order, the body of the new thread, and how many slots the thread drops at its end: the
    /// captured ones and the variables of the body.
    Spawn(Vec<Captured>, u32, u32),
    /// The content of a new mutex.
    Mutex(u32),
    /// The place of a mutex that gets a share more.
    Dup(Lval),
    /// The place of the mutex, the body, and how many variables the body declares outside of the blocks in it: so many slots
    /// are dropped before the mutex is unlocked.
    Lock(Lval, u32, u32),
    /// Both new threads, the second one with captures from what the first one leaves. They stand behind a pointer each, so that
    /// a form takes 40 bytes and not 72.
    Par(Box<Body>, Box<Body>),
    /// The node of a place or of a captured name, which nobody enters.
    Place,
}
