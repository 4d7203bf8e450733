//! What stands on the path of a place.

ghost use Rattle.std.specs.Prelude.{◌≡◌, ◌<◌, List, length, true, false, IfOk, not};
ghost use Rattle.fr_terms.specs.Terms.{Text};
ghost use Rattle.fr_typing.specs.Places.{found, on_path, is_lent, is_mutable, is_writable, is_own_path};
ghost use Rattle.fr_types.specs.Types.{piece_of};
ghost use Rattle.fr_types.specs.States.{env_of, part_in, AreNested};
ghost use Rattle.fr_types.specs.Paths.{test_of};

use crate::env::Env;
use crate::error::TypeError;
use crate::place::star;
use crate::types::{Part, Ty};
use fr_base::{Lval, NoMemory};
use std::alloc::Global;

// What is looked for: a shared reference or a view, a mutable reference, or any of them.
#[derive(Clone, Copy)]
enum Test {
    Lent,
    Mutable,
    Any,
}

/// Whether no shared reference and no view is on the path, so that something else may be written there.
pub fn is_writable(alloc: Global, env: &Env, w: Lval) -> Result<bool, NoMemory>
    requires here { w.slot < length env.now }
    ensures { (names : List Text) → IfOk result (λ b. b ≡ is_writable (env_of names env.now) w) }
{
    Ok(!on_path(alloc, env, w, Test::Lent)?)
}

/// Whether no reference and no view is on the path, so that the value there may be moved.
pub fn is_own_path(alloc: Global, env: &Env, w: Lval) -> Result<bool, NoMemory>
    requires here { w.slot < length env.now }
    ensures { (names : List Text) → IfOk result (λ b. b ≡ is_own_path (env_of names env.now) w) }
{
    Ok(!on_path(alloc, env, w, Test::Any)?)
}

/// Whether a mutable reference is on the path, so that a write there changes no slot's own part.
pub fn goes_through_mutable(alloc: Global, env: &Env, w: Lval) -> Result<bool, NoMemory>
    requires here { w.slot < length env.now }
    ensures { (names : List Text) → IfOk result (λ b. b ≡ on_path is_mutable (env_of names env.now) w.slot w.depth) }
{
    on_path(alloc, env, w, Test::Mutable)
}

// Whether a place with fewer stars has such a type; the slot itself is looked at without a copy.
fn on_path(alloc: Global, env: &Env, w: Lval, test: Test) -> Result<bool, NoMemory>
    requires here { w.slot < length env.now }
    ensures { (names : List Text) → IfOk result (λ b. b ≡ on_path (test_of test) (env_of names env.now) w.slot w.depth) }
{
    if w.depth == 0 {
        return Ok(false);
    }
    let Some(part) = env.slot(w.slot) else {
        unreachable!()
    };
    if meets(part, test) {
        return Ok(true);
    }
    if w.depth == 1 {
        return Ok(false);
    }
    met_below(alloc, env, part.copy(alloc)?, w, test)
}

// The same, where the slot has this part, which is no such one.
fn met_below(alloc: Global, env: &Env, part: Part, w: Lval, test: Test) -> Result<bool, NoMemory>
    requires here { w.slot < length env.now }
    requires part { piece_of part ≡ part_in env.now w.slot }
    requires other { test_of test (found (piece_of part)) ≡ false }
    requires nested { AreNested env.now }
    ensures { (names : List Text) → IfOk result (λ b. b ≡ on_path (test_of test) (env_of names env.now) w.slot w.depth) }
{
    let mut part = part;
    'stars: for _ in 1..w.depth {
        part = match star(alloc, env, part, w.slot) {
            Ok(part) => part,
            Err(TypeError::NotDefined) => return Ok(false),
            Err(TypeError::NoTarget) => return Ok(false),
            Err(TypeError::NoMemory) => return Err(NoMemory),
        };
        if meets(&part, test) {
            drop(part);
            return Ok(true);
        }
    }
    drop(part);
    Ok(false)
}

// Whether the part is such a one.
fn meets(part: &Part, test: Test) -> bool
    ensures { result ≡ test_of test (found (piece_of part.now)) }
{
    match (part, test) {
        (Part::Whole(Ty::Shared(_) | Ty::View(_)), Test::Lent | Test::Any) => true,
        (Part::Whole(Ty::Mut(_)), Test::Mutable | Test::Any) => true,
        _ => false,
    }
}
