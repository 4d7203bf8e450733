//! Types and parts.

ghost use Rattle.std.specs.Prelude.{◌≡◌, true, IfOk};
ghost use Rattle.fr_typing.specs.Kinds.{own};
ghost use Rattle.fr_typing.specs.Checks.{is_owned};
ghost use Rattle.fr_types.specs.OwnedTypes.{owned_of};
ghost use Rattle.fr_types.specs.Types.{kind_of, piece_of};

use crate::places::Places;
use fr_base::NoMemory;
use std::alloc::Global;

/// An owned type.
#[derive(Debug, Drop)]
pub enum O {
    Unit,
    Int,
    Box(Box<O>),
    Mutex(Box<O>),
    Task(Box<O>),
}

/// A type. A reference names the places that it may lead to.
#[derive(Debug, Drop)]
pub enum Ty {
    Unit,
    Int,
    Box(O),
    Mutex(O),
    Task(O),
    Shared(Places),
    Mut(Places),
    View(O),
}

/// What a slot or a box holds: a whole value of a type, one that is gone, or a box around a part.
#[derive(Debug, Drop)]
pub enum Part {
    Whole(Ty),
    Gone(Ty),
    Box(Box<Part>),
}

impl O {
    /// An equal type; it costs its levels.
    pub fn copy(&self, alloc: Global) -> Result<O, NoMemory>
        ensures { IfOk result (λ o. owned_of o ≡ owned_of self.now) }
    {
        match self {
            O::Unit => Ok(O::Unit),
            O::Int => Ok(O::Int),
            O::Box(o) => Ok(O::Box(Box::new(alloc, o.copy(alloc)?)?)),
            O::Mutex(o) => Ok(O::Mutex(Box::new(alloc, o.copy(alloc)?)?)),
            O::Task(o) => Ok(O::Task(Box::new(alloc, o.copy(alloc)?)?)),
        }
    }

    /// As a type.
    pub fn into_type(self) -> Ty
        ensures { kind_of result ≡ own (owned_of self) }
    {
        match self {
            O::Unit => Ty::Unit,
            O::Int => Ty::Int,
            O::Box(o) => Ty::Box(Box::into_inner(o)),
            O::Mutex(o) => Ty::Mutex(Box::into_inner(o)),
            O::Task(o) => Ty::Task(Box::into_inner(o)),
        }
    }
}

impl Ty {
    /// An equal type; it costs its levels or places.
    pub fn copy(&self, alloc: Global) -> Result<Ty, NoMemory>
        ensures { IfOk result (λ t. kind_of t ≡ kind_of self.now) }
    {
        match self {
            Ty::Unit => Ok(Ty::Unit),
            Ty::Int => Ok(Ty::Int),
            Ty::Box(o) => Ok(Ty::Box(o.copy(alloc)?)),
            Ty::Mutex(o) => Ok(Ty::Mutex(o.copy(alloc)?)),
            Ty::Task(o) => Ok(Ty::Task(o.copy(alloc)?)),
            Ty::Shared(us) => Ok(Ty::Shared(us.copy(alloc)?)),
            Ty::Mut(us) => Ok(Ty::Mut(us.copy(alloc)?)),
            Ty::View(o) => Ok(Ty::View(o.copy(alloc)?)),
        }
    }

    /// As an owned type.
    pub fn into_owned(self, alloc: Global) -> Result<O, NoMemory>
        requires owned { is_owned (kind_of self) ≡ true }
        ensures { IfOk result (λ o. own (owned_of o) ≡ kind_of self) }
    {
        match self {
            Ty::Unit => Ok(O::Unit),
            Ty::Int => Ok(O::Int),
            Ty::Box(o) => Ok(O::Box(Box::new(alloc, o)?)),
            Ty::Mutex(o) => Ok(O::Mutex(Box::new(alloc, o)?)),
            Ty::Task(o) => Ok(O::Task(Box::new(alloc, o)?)),
            Ty::Shared(_) | Ty::Mut(_) | Ty::View(_) => unreachable!(),
        }
    }
}

impl Part {
    /// An equal part.
    pub fn copy(&self, alloc: Global) -> Result<Part, NoMemory>
        ensures { IfOk result (λ p. piece_of p ≡ piece_of self.now) }
    {
        match self {
            Part::Whole(t) => Ok(Part::Whole(t.copy(alloc)?)),
            Part::Gone(t) => Ok(Part::Gone(t.copy(alloc)?)),
            Part::Box(p) => Ok(Part::Box(Box::new(alloc, p.copy(alloc)?)?)),
        }
    }
}
