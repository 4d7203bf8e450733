//! The type of a place.

ghost use Rattle.std.specs.Prelude.{◌≡◌, ◌<◌, ◌≤◌, ◌-◌, List, length, IfOk};
ghost use Rattle.fr_terms.specs.Terms.{Text};
ghost use Rattle.fr_typing.specs.Places.{AreBelow, piece_places, type_at, alike, Found, star, stars, join_set, join_found, found};
ghost use Rattle.fr_base.specs.declared.place.Lval.{Lval};
ghost use Rattle.fr_typing.specs.Kinds.{own, whole, SetTest};
ghost use Rattle.fr_types.specs.OwnedTypes.{owned_of};
ghost use Rattle.fr_types.specs.Types.{kind_of, piece_of};
ghost use Rattle.fr_types.specs.States.{env_of, AreNested};
ghost use Rattle.fr_types.specs.Answers.{IsFound};

use crate::env::Env;
use crate::error::TypeError;
use crate::join::join_parts;
use crate::types::{O, Part, Ty};
use fr_base::{Lval, NoMemory};
use std::alloc::Global;

/// The type of what stands at the place: `NotDefined` exactly at a star on something gone, `NoTarget` exactly at a star on
/// another part that leads nowhere, or where the types of the places of a set have no join, as those of references to places of two shapes. Through references to one place
/// it costs the place's stars and the levels of what it gives, however long the way is; each place of a larger set is looked
/// up.
#[cycle(place)]
pub fn lval_type(alloc: Global, env: &Env, w: Lval) -> Result<Part, TypeError>
    requires here { w.slot < length env.now }
    ensures kind { (names : List Text) → IsFound result (type_at (env_of names env.now) w) }
    ensures below { IfOk result (λ p. AreBelow w.slot (piece_places (piece_of p))) }
    ensures nested { AreNested env.now }
{
    let at = env.resolve(w);
    let Some(part) = env.slot(at.slot) else {
        unreachable!()
    };
    let (mut part, left) = inside(alloc, part, at.stars)?;
    'stars: for _ in 0..left {
        part = match star(alloc, env, part, at.slot) {
            Ok(part) => part,
            Err(e) => return Err(e),
        };
    }
    Ok(part)
}

// What stands in a part under so many stars, or as far down as boxes lead: and how many stars are left there.
fn inside(alloc: Global, part: &Part, depth: u64) -> Result<(Part, u64), NoMemory>
    ensures left { IfOk result (λ p. p.1 ≤ depth) }
    ensures part { IfOk result (λ p. (same : SetTest) (look : Lval → Found) → stars same look (depth - p.1) (piece_of part.now) ≡ found (piece_of p.0)) }
{
    match part {
        Part::Box(p) if 0 < depth => inside(alloc, p, depth - 1),
        Part::Whole(t) => inside_type(alloc, t, depth),
        part => Ok((part.copy(alloc)?, depth)),
    }
}

// The same in a whole part.
fn inside_type(alloc: Global, t: &Ty, depth: u64) -> Result<(Part, u64), NoMemory>
    ensures left { IfOk result (λ p. p.1 ≤ depth) }
    ensures part { IfOk result (λ p. (same : SetTest) (look : Lval → Found) → stars same look (depth - p.1) (whole (kind_of t.now)) ≡ found (piece_of p.0)) }
{
    match t {
        Ty::Box(o) if 0 < depth => inside_owned(alloc, o, depth - 1),
        Ty::View(o) if 0 < depth => inside_owned(alloc, o, depth - 1),
        t => Ok((Part::Whole(t.copy(alloc)?), depth)),
    }
}

// The same in a whole part of an owned type.
fn inside_owned(alloc: Global, o: &O, depth: u64) -> Result<(Part, u64), NoMemory>
    ensures left { IfOk result (λ p. p.1 ≤ depth) }
    ensures part { IfOk result (λ p. (same : SetTest) (look : Lval → Found) → stars same look (depth - p.1) (whole (own (owned_of o.now))) ≡ found (piece_of p.0)) }
{
    match o {
        O::Box(o) if 0 < depth => inside_owned(alloc, o, depth - 1),
        o => Ok((Part::Whole(o.copy(alloc)?.into_type()), depth)),
    }
}

/// What a star takes a part to, which names only slots below the bound.
#[cycle(place)]
pub fn star(alloc: Global, env: &Env, part: Part, bound: u32) -> Result<Part, TypeError>
    requires below { AreBelow bound (piece_places (piece_of part)) }
    requires here { bound ≤ length env.now }
    ensures { (names : List Text) → IsFound result (star (alike (env_of names env.now)) (type_at (env_of names env.now)) (piece_of part)) }
{
    match part {
        Part::Whole(Ty::Box(o)) => Ok(Part::Whole(o.into_type())),
        Part::Whole(Ty::View(o)) => Ok(Part::Whole(o.into_type())),
        Part::Whole(Ty::Shared(us)) => join_set(alloc, env, us.as_slice(), bound),
        Part::Whole(Ty::Mut(us)) => join_set(alloc, env, us.as_slice(), bound),
        Part::Whole(t) => {
            drop(t);
            Err(TypeError::NoTarget)
        }
        Part::Gone(t) => {
            drop(t);
            Err(TypeError::NotDefined)
        }
        Part::Box(p) => Ok(Box::into_inner(p)),
    }
}

// The join of the types of a set of places, below the bound.
#[cycle(place)]
fn join_set(alloc: Global, env: &Env, us: &[Lval], bound: u32) -> Result<Part, TypeError>
    requires some { 0 < length us.now }
    requires below { AreBelow bound us.now }
    requires here { bound ≤ length env.now }
    ensures { (names : List Text) → IsFound result (join_set (alike (env_of names env.now)) (type_at (env_of names env.now)) us.now) }
{
    let mut part = match lval_type(alloc, env, us[0]) {
        Ok(part) => part,
        Err(e) => return Err(e),
    };
    'places: for at in 1..us.len() {
        part = match join_with(alloc, env, part, us[at]) {
            Ok(part) => part,
            Err(e) => return Err(e),
        };
    }
    Ok(part)
}

// The join of a part and of what stands at one more place.
#[cycle(place)]
fn join_with(alloc: Global, env: &Env, part: Part, u: Lval) -> Result<Part, TypeError>
    requires here { u.slot < length env.now }
    ensures { (names : List Text) → IsFound result (join_found (alike (env_of names env.now)) (found (piece_of part)) (type_at (env_of names env.now) u)) }
{
    match lval_type(alloc, env, u) {
        Ok(other) => join_found(alloc, env, part, other),
        Err(e) => {
            drop(part);
            Err(e)
        }
    }
}

// The join of two parts.
fn join_found(alloc: Global, env: &Env, p: Part, q: Part) -> Result<Part, TypeError>
    ensures { (names : List Text) → IsFound result (join_found (alike (env_of names env.now)) (found (piece_of p)) (found (piece_of q))) }
{
    let joined = join_parts(alloc, env, &p, &q);
    drop(p);
    drop(q);
    match joined? {
        Some(part) => Ok(part),
        None => Err(TypeError::NoTarget),
    }
}
