//! Shapes without numbers: types level by level, by reference.

ghost use Rattle.std.specs.Prelude.{◌≡◌, ◌+◌, ◌≤◌, List, Option, Some, IfSome};
ghost use Rattle.fr_base.specs.declared.place.Lval.{Lval};
ghost use Rattle.fr_terms.specs.Terms.{Text};
ghost use Rattle.fr_typing.specs.Places.{Shape, owned_shape, kind_shape, shape_at, equal_shapes};
ghost use Rattle.fr_typing.specs.Checks.{owned_levels};
ghost use Rattle.fr_types.specs.OwnedTypes.{owned_of};
ghost use Rattle.fr_types.specs.Types.{kind_of};
ghost use Rattle.fr_types.specs.States.{env_of};
ghost use Rattle.fr_types.specs.Walks.{at_shape, at_rank, at_size, level_shape, level_in, level_rank, level_size, kind_rank, kind_size, target_shape, equal_owned, may_go, HoldsOwned};

use crate::env::Env;
use crate::kinds::same_owned;
use crate::numbered::is_owned_part;
use crate::types::{O, Part, Ty};
use fr_base::Lval;

/// Where a walk stands: at a part, at a type, or at what a type holds.
#[derive(Clone, Copy)]
pub enum At<'a> {
    InPart(&'a Part),
    InType(&'a Ty),
    InOwned(&'a O),
}

/// The outermost level of what stands there, whole or not; of a reference its first place. `Nothing`: it has no shape.
#[derive(Clone, Copy)]
pub enum Level<'a> {
    Unit,
    Int,
    Box(At<'a>),
    Mutex(&'a O),
    Task(&'a O),
    View(&'a O),
    Shared(Lval),
    Mut(Lval),
    Nothing,
}

/// The level there; it costs the levels of a part in boxes.
pub fn level_at<'a>(at: At<'a>) -> Level<'a>
    ensures shape { (look : Lval → Option Shape) → level_shape look result ≡ at_shape look at.entry }
    ensures owned { HoldsOwned result }
    ensures rank { level_rank result ≤ at_rank at.entry }
    ensures size { level_size result ≤ at_size at.entry }
{
    match at {
        At::InPart(Part::Whole(t) | Part::Gone(t)) => type_level(t),
        At::InPart(Part::Box(p)) => {
            if is_owned_part(p) {
                Level::Box(At::InPart(p))
            } else {
                Level::Nothing
            }
        }
        At::InType(t) => type_level(t),
        At::InOwned(o) => owned_level(o),
    }
}

fn type_level<'a>(t: &'a Ty) -> Level<'a>
    ensures shape { (look : Lval → Option Shape) → level_shape look result ≡ kind_shape look (kind_of t.now) }
    ensures owned { HoldsOwned result }
    ensures rank { level_rank result ≤ kind_rank (kind_of t.now) }
    ensures size { level_size result ≤ kind_size (kind_of t.now) }
{
    match t {
        Ty::Unit => Level::Unit,
        Ty::Int => Level::Int,
        Ty::Box(o) => Level::Box(At::InOwned(o)),
        Ty::Mutex(o) => Level::Mutex(o),
        Ty::Task(o) => Level::Task(o),
        Ty::View(o) => Level::View(o),
        Ty::Shared(us) => Level::Shared(us.as_slice()[0]),
        Ty::Mut(us) => Level::Mut(us.as_slice()[0]),
    }
}

fn owned_level<'a>(o: &'a O) -> Level<'a>
    ensures shape { (look : Lval → Option Shape) → level_shape look result ≡ Some (owned_shape (owned_of o.now)) }
    ensures owned { HoldsOwned result }
    ensures rank { level_rank result ≡ 0 }
    ensures size { level_size result ≤ owned_levels (owned_of o.now) }
{
    match o {
        O::Unit => Level::Unit,
        O::Int => Level::Int,
        O::Box(o) => Level::Box(At::InOwned(o)),
        O::Mutex(o) => Level::Mutex(o),
        O::Task(o) => Level::Task(o),
    }
}

/// The level of what stands at a place, whole or not. `None`: the place has no shape. It costs the stars on the way, where
/// each reference leads to its first place.
pub fn place_level<'a>(env: &'a Env, u: Lval) -> Option<Level<'a>>
    ensures shape { (names : List Text) → shape_at (env_of names env.now) u ≡ level_in (shape_at (env_of names env.now)) result }
    ensures rank { IfSome result (λ l. level_rank l ≤ u.slot + 1) }
{
    let Some(part) = env.slot(u.slot) else {
        return None;
    };
    let mut at = level_at(At::InPart(part));
    let mut left = u.depth as u64;
    'stars: while 0 < left {
        left -= 1;
        at = match at {
            Level::Box(x) => level_at(x),
            Level::View(o) => owned_level(o),
            Level::Shared(v) | Level::Mut(v) => {
                let Some(part) = env.slot(v.slot) else {
                    return None;
                };
                left += v.depth as u64;
                level_at(At::InPart(part))
            }
            _ => return None,
        };
    }
    Some(at)
}

// The level of what a reference or a view leads to.
fn target_level<'a>(env: &'a Env, from: Level<'a>) -> Option<Level<'a>>
    ensures shape { (names : List Text) → target_shape (shape_at (env_of names env.now)) from.entry ≡ level_in (shape_at (env_of names env.now)) result }
    ensures rank { IfSome result (λ l. level_rank l + 1 ≤ level_rank from.entry) }
{
    match from {
        Level::View(o) => Some(owned_level(o)),
        Level::Shared(u) | Level::Mut(u) => place_level(env, u),
        _ => None,
    }
}

/// Whether both have a shape, and the same one.
pub fn same_levels<'a>(env: &'a Env, a: Level<'a>, b: Level<'a>) -> bool
    ensures { (names : List Text) → result ≡ equal_shapes (level_shape (shape_at (env_of names env.now)) a.entry) (level_shape (shape_at (env_of names env.now)) b.entry) }
{
    let mut a = a;
    let mut b = b;
    'levels: while may_go(a, b) {
        let Some(x) = target_level(env, a) else {
            return false;
        };
        let Some(y) = target_level(env, b) else {
            return false;
        };
        a = x;
        b = y;
    }
    same_owned_levels(a, b)
}

// Whether both are references of one sort, and so lead further.
fn may_go<'a>(a: Level<'a>, b: Level<'a>) -> bool
    ensures { result ≡ may_go a.entry b.entry }
{
    match (a, b) {
        (Level::Shared(_) | Level::View(_), Level::Shared(_) | Level::View(_)) => true,
        (Level::Mut(_), Level::Mut(_)) => true,
        _ => false,
    }
}

// Whether both are owned types, and equal.
fn same_owned_levels<'a>(a: Level<'a>, b: Level<'a>) -> bool
    ensures { (look : Lval → Option Shape) → result ≡ equal_owned (level_shape look a.entry) (level_shape look b.entry) }
{
    match (a, b) {
        (Level::Unit, Level::Unit) => true,
        (Level::Int, Level::Int) => true,
        (Level::Box(x), Level::Box(y)) => same_owned_levels(level_at(x), level_at(y)),
        (Level::Mutex(o), Level::Mutex(q)) => same_owned(o, q),
        (Level::Task(o), Level::Task(q)) => same_owned(o, q),
        _ => false,
    }
}
