//! Why a term has no type.

/// The check that failed.
#[derive(Clone, Copy, Debug, PartialEq, Eq)]
pub enum Reason {
    /// No slot has the name.
    UnknownName,
    /// A slot has the new name already.
    NameInScope,
    /// What stands at the place is gone, in whole or in part.
    NotDefined,
    /// A star on something that leads nowhere.
    NoTarget,
    /// A mutable reference to the variable is alive.
    ReadBlocked,
    /// A reference to the variable is alive.
    WriteBlocked,
    /// A value would be moved out through a reference.
    MovedThrough,
    /// A value would be written through a shared reference.
    NotWritable,
    /// The type isn't the one that the term asks for.
    WrongType,
    /// A reference would live longer than the variable that it leads to.
    Outlives,
    /// The type isn't owned, or is as deep as types may be.
    NotOwned,
    /// A variable that has to be handed on whole isn't whole.
    NotFull,
}
