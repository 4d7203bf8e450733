//! Equal shapes.

ghost use Rattle.std.specs.Prelude.{◌≡◌, List};
ghost use Rattle.fr_terms.specs.Terms.{Text};
ghost use Rattle.fr_typing.specs.Places.{kind_shape, shape_at, equal_shapes, have_shape, alike};
ghost use Rattle.fr_typing.specs.Checks.{has_shape_of};
ghost use Rattle.fr_types.specs.Types.{kind_of, piece_of};
ghost use Rattle.fr_types.specs.States.{env_of};

use crate::env::Env;
use crate::places::Places;
use crate::types::{Part, Ty};
use crate::walk::{At, level_at, place_level, same_levels};
use fr_base::Lval;

/// Whether both types have a shape, and the same one. It costs the stars of two places or the levels of an owned type, while
/// each part that was put at a slot had the shape of the one before it; else a look-up for each reference on the way.
pub fn same_shape(env: &Env, a: &Ty, b: &Ty) -> bool
    ensures { (names : List Text) → result ≡ equal_shapes (kind_shape (shape_at (env_of names env.now)) (kind_of a.now)) (kind_shape (shape_at (env_of names env.now)) (kind_of b.now)) }
{
    if let Some(same) = env.same_shapes(a, b) {
        return same;
    }
    same_levels(env, level_at(At::InType(a)), level_at(At::InType(b)))
}

/// Whether the type has the shape of the part, as a value must have that is written over it. It costs as `same_shape`, and the
/// part's levels.
pub fn has_shape_of(env: &Env, part: &Part, t: &Ty) -> bool
    ensures { (names : List Text) → result ≡ has_shape_of (env_of names env.now) (piece_of part.now) (kind_of t.now) }
{
    if let Some(same) = env.fits(part, t) {
        return same;
    }
    same_levels(env, level_at(At::InPart(part)), level_at(At::InType(t)))
}

/// Whether the places of both sets have one shape. For each place it costs as `same_shape`.
pub fn have_one_shape(env: &Env, us: &Places, vs: &Places) -> bool
    ensures { (names : List Text) → result ≡ alike (env_of names env.now) us.now vs.now }
{
    let u = us.as_slice()[0];
    have_shape_of(env, u, us.as_slice()) && have_shape_of(env, u, vs.as_slice())
}

// Whether each of the places has the shape of this one.
fn have_shape_of(env: &Env, u: Lval, vs: &[Lval]) -> bool
    ensures { (names : List Text) → result ≡ have_shape (shape_at (env_of names env.now)) (shape_at (env_of names env.now) u) vs.now }
{
    'places: for at in 0..vs.len() {
        if !same_places(env, u, vs[at]) {
            return false;
        }
    }
    true
}

// Whether both places have a shape, and the same one.
fn same_places(env: &Env, u: Lval, v: Lval) -> bool
    ensures { (names : List Text) → result ≡ equal_shapes (shape_at (env_of names env.now) u) (shape_at (env_of names env.now) v) }
{
    if let Some(same) = env.same_places(u, v) {
        return same;
    }
    let Some(a) = place_level(env, u) else {
        return false;
    };
    let Some(b) = place_level(env, v) else {
        return false;
    };
    same_levels(env, a, b)
}
