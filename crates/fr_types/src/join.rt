//! Joins of types and of parts: what holds of both.

ghost use Rattle.std.specs.Prelude.{◌≡◌, List, Some, None, IfOk, if◌then◌else◌};
ghost use Rattle.fr_terms.specs.Terms.{Text};
ghost use Rattle.fr_typing.specs.Kinds.{union, join_kind, join_piece};
ghost use Rattle.fr_typing.specs.Places.{alike};
ghost use Rattle.fr_types.specs.Types.{kind_of, piece_of};
ghost use Rattle.fr_types.specs.Answers.{kind_in, piece_in};
ghost use Rattle.fr_types.specs.States.{env_of};

use crate::env::Env;
use crate::kinds::{same_owned, same_type};
use crate::places::Places;
use crate::shape::have_one_shape;
use crate::types::{O, Part, Ty};
use fr_base::NoMemory;
use std::alloc::Global;

/// The join of two types: equal types, or references of one sort to both sets of places, which have one shape in the
/// environment. `None`: there is none.
pub fn join_types(alloc: Global, env: &Env, a: &Ty, b: &Ty) -> Result<Option<Ty>, NoMemory>
    ensures { (names : List Text) → IfOk result (λ t. kind_in t ≡ join_kind (alike (env_of names env.now)) (kind_of a.now) (kind_of b.now)) }
{
    match (a, b) {
        (Ty::Shared(us), Ty::Shared(vs)) => match join_places(alloc, env, us, vs)? {
            Some(ws) => Ok(Some(Ty::Shared(ws))),
            None => Ok(None),
        },
        (Ty::Mut(us), Ty::Mut(vs)) => match join_places(alloc, env, us, vs)? {
            Some(ws) => Ok(Some(Ty::Mut(ws))),
            None => Ok(None),
        },
        (Ty::View(o), Ty::View(q)) if same_owned(o, q) => Ok(Some(Ty::View(o.copy(alloc)?))),
        (a, b) if same_type(a, b) => Ok(Some(a.copy(alloc)?)),
        _ => Ok(None),
    }
}

// Both sets of places together, where they have one shape.
fn join_places(
    alloc: Global,
    env: &Env,
    us: &Places,
    vs: &Places,
) -> Result<Option<Places>, NoMemory>
    ensures { (names : List Text) → IfOk result (λ ws. ws ≡ (if alike (env_of names env.now) us.now vs.now then Some (union us.now vs.now) else None)) }
{
    if have_one_shape(env, us, vs) {
        Ok(Some(us.union(alloc, vs)?))
    } else {
        Ok(None)
    }
}

/// The join of two parts, both whole, both gone or both boxes. `None`: there is none.
pub fn join_parts(alloc: Global, env: &Env, p: &Part, q: &Part) -> Result<Option<Part>, NoMemory>
    ensures { (names : List Text) → IfOk result (λ r. piece_in r ≡ join_piece (alike (env_of names env.now)) (piece_of p.now) (piece_of q.now)) }
{
    match (p, q) {
        (Part::Whole(a), Part::Whole(b)) => match join_types(alloc, env, a, b)? {
            Some(t) => Ok(Some(Part::Whole(t))),
            None => Ok(None),
        },
        (Part::Gone(a), Part::Gone(b)) => match join_types(alloc, env, a, b)? {
            Some(t) => Ok(Some(Part::Gone(t))),
            None => Ok(None),
        },
        (Part::Box(p), Part::Box(q)) => match join_parts(alloc, env, p, q)? {
            Some(r) => Ok(Some(Part::Box(Box::new(alloc, r)?))),
            None => Ok(None),
        },
        _ => Ok(None),
    }
}
