//! Finding written places in the environment.

ghost use Rattle.std.specs.Prelude.{◌≡◌, ◌<◌, ◌∷◌, [], List, length, IfOk, OnOk, IfSome, None};
ghost use Rattle.fr_terms.specs.Terms.{Text};
ghost use Rattle.fr_typing.specs.Kinds.{whole};
ghost use Rattle.fr_typing.specs.Places.{AreBelow, kind_places, piece_places};
ghost use Rattle.fr_syntax.specs.Meanings.{meanings, meaning_at, place_at, sort_of, place_s};
ghost use Rattle.fr_types.specs.Types.{kind_of, piece_of};
ghost use Rattle.fr_types.specs.States.{env_of, AreNested};
ghost use Rattle.borrow_check.specs.Rules.{spot_of, IsInScope, IsLacking, Finds, FindsWhole, FindsShown};

use crate::check_error::CheckError;
use crate::written::Written;
use fr_base::Lval;
use fr_syntax::{Term, Tree};
use fr_types::{Env, Part, Ty, TypeError, lval_type};
use fr_typing::Reason;
use std::alloc::Global;

/// The place that a node writes.
pub fn written_at(tree: &Tree, at: u32) -> Written
    requires here { at < length (meanings tree.now) }
    requires sort { sort_of (meaning_at (meanings tree.now) at).what ≡ place_s }
    ensures spot { place_at (meanings tree.now) at ≡ spot_of tree.now.names result }
    ensures name { result.name < length tree.now.names }
    ensures nodes { (meaning_at (meanings tree.now) at).nodes ≡ at ∷ [] }
{
    let Some(node) = tree.node(at) else {
        unreachable!()
    };
    match node.term {
        Term::Place(name, stars) => Written {
            name,
            stars,
            place: node.place,
        },
        _ => unreachable!(),
    }
}

/// The place that is written, and a copy of what stands there.
pub fn find(alloc: Global, env: &Env, w: Written) -> Result<(Lval, Part), CheckError>
    ensures finds { (names : List Text) → IsInScope names env.now → w.name < length names → Finds result (env_of names env.now) (spot_of names w) }
    ensures here { IfOk result (λ f. f.0.slot < length env.now) }
    ensures below { IfOk result (λ f. AreBelow f.0.slot (piece_places (piece_of f.1))) }
    ensures nested { OnOk result (AreNested env.now) }
{
    let Some(slot) = env.find(w.name) else {
        return Err(CheckError::Fault {
            place: w.place,
            reason: Reason::UnknownName,
        });
    };
    let x = Lval {
        slot,
        depth: w.stars,
    };
    match lval_type(alloc, env, x) {
        Ok(part) => Ok((x, part)),
        Err(TypeError::NotDefined) => Err(CheckError::Fault {
            place: w.place,
            reason: Reason::NotDefined,
        }),
        Err(TypeError::NoTarget) => Err(CheckError::Fault {
            place: w.place,
            reason: Reason::NoTarget,
        }),
        Err(TypeError::NoMemory) => Err(CheckError::NoMemory),
    }
}

/// The same of a place that has to be whole.
pub fn find_whole(alloc: Global, env: &Env, w: Written) -> Result<(Lval, Ty), CheckError>
    ensures finds { (names : List Text) → IsInScope names env.now → w.name < length names → FindsWhole result (env_of names env.now) (spot_of names w) }
    ensures here { IfOk result (λ f. f.0.slot < length env.now) }
    ensures below { IfOk result (λ f. AreBelow f.0.slot (kind_places (kind_of f.1))) }
{
    let (x, part) = find(alloc, env, w)?;
    match whole(part) {
        Some(t) => Ok((x, t)),
        None => Err(CheckError::Fault {
            place: w.place,
            reason: Reason::NotDefined,
        }),
    }
}

/// The same of a place that may be read too.
pub fn find_shown(alloc: Global, env: &Env, w: Written) -> Result<(Lval, Ty), CheckError>
    ensures finds { (names : List Text) → IsInScope names env.now → w.name < length names → FindsShown result (env_of names env.now) (spot_of names w) }
    ensures here { IfOk result (λ f. f.0.slot < length env.now) }
{
    let (x, t) = find_whole(alloc, env, w)?;
    if env.read_blocked(x.slot) {
        return Err(CheckError::Fault {
            place: w.place,
            reason: Reason::ReadBlocked,
        });
    }
    Ok((x, t))
}

// The type of a part that is whole.
fn whole(part: Part) -> Option<Ty>
    ensures whole { IfSome result (λ t. piece_of part ≡ whole (kind_of t)) }
    ensures lacking { result ≡ None → IsLacking (piece_of part) }
{
    match part {
        Part::Whole(t) => Some(t),
        Part::Gone(t) => {
            drop(t);
            None
        }
        Part::Box(p) => {
            drop(p);
            None
        }
    }
}
