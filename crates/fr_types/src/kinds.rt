//! What a checker asks of types.

ghost use Rattle.std.specs.Prelude.{◌≡◌, ◌&&◌, nat_le, ℕ, IfOk};
ghost use Rattle.fr_typing.specs.Kinds.{own, same_owned, box_of, copies};
ghost use Rattle.fr_typing.specs.Checks.{is_owned, is_int, is_full, owned_levels, names_from};
ghost use Rattle.fr_types.specs.OwnedTypes.{owned_of};
ghost use Rattle.fr_types.specs.Types.{kind_of, piece_of};
ghost use Rattle.fr_types.specs.Shapes.{same_kind};
ghost use Rattle.std.specs.List.{list_any};
ghost use Rattle.fr_base.specs.declared.place.Lval.{Lval};

use crate::types::{O, Part, Ty};
use fr_base::{Lval, NoMemory};
use std::alloc::Global;

/// Whether the type is an owned one.
pub fn is_owned(t: &Ty) -> bool
    ensures { result ≡ is_owned (kind_of t.now) }
{
    match t {
        Ty::Unit | Ty::Int | Ty::Box(_) | Ty::Mutex(_) | Ty::Task(_) => true,
        Ty::Shared(_) | Ty::Mut(_) | Ty::View(_) => false,
    }
}

/// Whether a read copies values of the type; all others are moved.
pub fn copies(t: &Ty) -> bool
    ensures { result ≡ copies (kind_of t.now) }
{
    match t {
        Ty::Unit | Ty::Int | Ty::Shared(_) | Ty::View(_) => true,
        Ty::Box(_) | Ty::Mutex(_) | Ty::Task(_) | Ty::Mut(_) => false,
    }
}

/// Whether the type is that of numbers.
pub fn is_int(t: &Ty) -> bool
    ensures { result ≡ is_int (kind_of t.now) }
{
    match t {
        Ty::Int => true,
        _ => false,
    }
}

/// Whether the type names a place that starts at this slot or a later one.
pub fn names_from(t: &Ty, slot: u32) -> bool
    ensures { result ≡ names_from slot (kind_of t.now) }
{
    match t {
        Ty::Shared(us) => any_from(us.as_slice(), slot),
        Ty::Mut(us) => any_from(us.as_slice(), slot),
        _ => false,
    }
}

fn any_from(us: &[Lval], slot: u32) -> bool
    ensures { result ≡ list_any (λ (u : Lval). nat_le slot u.slot) us.now }
{
    us.iter().any(|u| slot <= u.slot)
}

/// Whether the owned types are equal.
pub fn same_owned(a: &O, b: &O) -> bool
    ensures { result ≡ same_owned (owned_of a.now) (owned_of b.now) }
{
    match (a, b) {
        (O::Unit, O::Unit) => true,
        (O::Int, O::Int) => true,
        (O::Box(a), O::Box(b)) => same_owned(a, b),
        (O::Mutex(a), O::Mutex(b)) => same_owned(a, b),
        (O::Task(a), O::Task(b)) => same_owned(a, b),
        _ => false,
    }
}

/// Whether both are owned types, and equal.
pub fn same_type(a: &Ty, b: &Ty) -> bool
    ensures { result ≡ same_kind (kind_of a.now) (kind_of b.now) }
{
    match (a, b) {
        (Ty::Unit, Ty::Unit) => true,
        (Ty::Int, Ty::Int) => true,
        (Ty::Box(o), Ty::Box(q)) => same_owned(o, q),
        (Ty::Mutex(o), Ty::Mutex(q)) => same_owned(o, q),
        (Ty::Task(o), Ty::Task(q)) => same_owned(o, q),
        _ => false,
    }
}

/// Whether the type is this owned one.
pub fn is_type(t: &Ty, o: &O) -> bool
    ensures { result ≡ same_kind (kind_of t.now) (own (owned_of o.now)) }
{
    match (t, o) {
        (Ty::Unit, O::Unit) => true,
        (Ty::Int, O::Int) => true,
        (Ty::Box(o), O::Box(q)) => same_owned(o, q),
        (Ty::Mutex(o), O::Mutex(q)) => same_owned(o, q),
        (Ty::Task(o), O::Task(q)) => same_owned(o, q),
        _ => false,
    }
}

// Whether an owned type has so many levels or more.
fn has_levels(o: &O, levels: u8) -> bool
    ensures { result ≡ nat_le levels (owned_levels (owned_of o.now)) }
{
    if levels == 0 {
        return true;
    }
    match o {
        O::Unit | O::Int => levels == 1,
        O::Box(o) | O::Mutex(o) | O::Task(o) => has_levels(o, levels - 1),
    }
}

/// Whether the owned type has 64 levels, so that no other can hold it.
pub fn is_full(o: &O) -> bool
    ensures { result ≡ is_full (owned_of o.now) }
{
    has_levels(o, 64)
}

/// A box around a part; around a whole part of an owned type it counts as whole.
pub fn boxed(alloc: Global, part: Part) -> Result<Part, NoMemory>
    ensures { IfOk result (λ p. piece_of p ≡ box_of (piece_of part)) }
{
    match part {
        Part::Whole(Ty::Unit) => Ok(Part::Whole(Ty::Box(O::Unit))),
        Part::Whole(Ty::Int) => Ok(Part::Whole(Ty::Box(O::Int))),
        Part::Whole(Ty::Box(o)) => Ok(Part::Whole(Ty::Box(O::Box(Box::new(alloc, o)?)))),
        Part::Whole(Ty::Mutex(o)) => Ok(Part::Whole(Ty::Box(O::Mutex(Box::new(alloc, o)?)))),
        Part::Whole(Ty::Task(o)) => Ok(Part::Whole(Ty::Box(O::Task(Box::new(alloc, o)?)))),
        part => Ok(Part::Box(Box::new(alloc, part)?)),
    }
}
