//! Places and operators.

/// A place: a slot under a number of stars (at most eight in a checked program).
#[derive(Clone, Copy, Debug, PartialEq, Eq)]
pub struct Lval {
    pub slot: u32,
    pub depth: u8,
}

/// An operator between two integers; sums, differences and products wrap at 64 bits.
#[derive(Clone, Copy, Debug, PartialEq, Eq)]
pub enum Op {
    Add,
    Sub,
    Mul,
}
